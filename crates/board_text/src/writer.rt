ghost use Rattle.std.specs.Prelude.{◌≡◌, ◌≤◌, length, take, IfOk};
ghost use Rattle.board_text.specs.Laws.{GivesBack, KnownByItsText};
ghost use Rattle.board_text.specs.Text.{text_of};
ghost use Rattle.board_text.specs.Writing.{written, after_writing};

use crate::kinds::LineKind;
use crate::pen::Pen;
use crate::refusals::WriteRefusal;
use board::{Board, count_moves};

// The bytes of a line without its moves, with the LF.
const LINE: usize = 7;

// The bytes of one move.
const MOVE: usize = 4;

// Writes the board's text to the front of the slice and answers its length, or refuses with nothing
// written where the slice is too short.
pub fn write<B: Board>(board: &B, out: &mut [u8]) -> Result<usize, WriteRefusal>
    ensures answer { result ≡ written (text_of (B.Board.meaning board.now)) (length out.old) }
    ensures after { out.new ≡ after_writing (text_of (B.Board.meaning board.now)) out.old }
    ensures longest { length (text_of (B.Board.meaning board.now)) ≤ 36366 }
    ensures back { IfOk result (λ n. GivesBack (take n out.new) (B.Board.meaning board.now)) }
    ensures known { KnownByItsText (B.Board.meaning board.now) }
{
    let count = board.count();
    let total = count_moves(board);
    // A line for each position, and the first and the last.
    let lines = usize::from(count) + 2;
    let needed = LINE * lines + MOVE * usize::from(total);
    if out.len() < needed {
        return Err(WriteRefusal::TooShort);
    }
    let mut pen = Pen { out, at: 0 };
    pen.number_line(LineKind::Count, count);
    pen.spots(board);
    pen.number_line(LineKind::Total, total);
    Ok(needed)
}
