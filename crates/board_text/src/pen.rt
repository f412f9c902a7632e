ghost use Rattle.std.specs.Prelude.{◌≡◌, ◌+◌, ◌*◌, ◌≤◌, [], ◌∷◌, ◌++◌, length};
ghost use Rattle.board.specs.Spot.{spot_at};
ghost use Rattle.board_text.specs.Digits.{hex2, hex4, hex4s};
ghost use Rattle.board_text.specs.Kinds.{kind_number};
ghost use Rattle.board_text.specs.Pens.{HasRoom, Writes};
ghost use Rattle.board_text.specs.Text.{spot_line, spot_lines};

use crate::digits::hex2;
use crate::kinds::LineKind;
use board::Board;

// A slice that is written from its front on. Each method asks for room for just what it writes, so that no
// fact about the pen would serve them all.
#[derive(Drop)]
pub(crate) struct Pen<'a> {
    pub(crate) out: &'a mut [u8],
    // Where the next byte goes.
    pub(crate) at: usize,
}

impl Pen<'_> {
    // Writes the bytes.
    fn put(&mut self, bytes: &[u8])
        requires { HasRoom self.old (length bytes.now) }
        ensures { Writes self.old bytes.now self.new }
    {
        let end = self.at + bytes.len();
        self.out[self.at..end].copy_from_slice(bytes);
        self.at = end;
    }

    // Writes a number in two digits.
    fn two(&mut self, n: u8)
        requires { HasRoom self.old 2 }
        ensures { Writes self.old (hex2 n) self.new }
    {
        self.put(&hex2(n));
    }

    // Writes a number in four digits, two and two: all four put at once took longer.
    fn four(&mut self, n: u16)
        requires { HasRoom self.old 4 }
        ensures { Writes self.old (hex4 n) self.new }
    {
        let [high, low] = n.to_be_bytes();
        self.two(high);
        self.two(low);
    }

    // Writes a line that holds one number.
    pub(crate) fn number_line(&mut self, kind: LineKind, n: u16)
        requires { HasRoom self.old 7 }
        ensures { Writes self.old (hex2 (kind_number kind) ++ (hex4 n ++ 10 ∷ [])) self.new }
    {
        self.two(kind as u8);
        self.four(n);
        self.put(b"\n");
    }

    // Writes the moves of a position.
    fn moves<B: Board>(&mut self, board: &B, position: u16)
        requires { HasRoom self.old (length (hex4s (spot_at (B.Board.meaning board.now) position).moves)) }
        ensures { Writes self.old (hex4s (spot_at (B.Board.meaning board.now) position).moves) self.new }
    {
        for place in 0..board.moves(position) {
            self.four(board.move_at(position, place));
        }
    }

    // Writes the line of a position.
    fn spot<B: Board>(&mut self, board: &B, position: u16)
        requires { HasRoom self.old (length (spot_line (spot_at (B.Board.meaning board.now) position))) }
        ensures { Writes self.old (spot_line (spot_at (B.Board.meaning board.now) position)) self.new }
    {
        self.two(LineKind::Spot as u8);
        self.two(board.side(position) as u8);
        self.two(board.label(position));
        self.moves(board, position);
        self.put(b"\n");
    }

    // Writes the lines of all positions.
    pub(crate) fn spots<B: Board>(&mut self, board: &B)
        requires { HasRoom self.old (length (spot_lines (B.Board.meaning board.now))) }
        ensures { Writes self.old (spot_lines (B.Board.meaning board.now)) self.new }
    {
        for position in 0..board.count() {
            self.spot(board, position);
        }
    }
}
