ghost use Rattle.std.specs.Prelude.{◌≡◌, length, IfOk, Ok, Err};
ghost use Rattle.board.specs.Summary.{summary_of};
ghost use Rattle.board_text.specs.Formatting.{refusal_line, formatted, told};
ghost use Rattle.board_text.specs.Refusals.{number_of};
ghost use Rattle.board_text.specs.Text.{text_of};
ghost use Rattle.board_text.specs.Verdict.{verdict};

use crate::digits::{hex2, hex4};
use crate::reader::read;
use crate::refusals::TextRefusal;
use crate::writer::write;
use board::{Board, MOST_MOVES, MOST_POSITIONS, Record, Refusal, Summary, Table, summarise};
use std::alloc::{AllocError, Global};

// The most records and the most moves that a board can have. (A constant cannot call `usize::from`.)
const MOST_RECORDS: usize = MOST_POSITIONS as usize;

const MOST_MOVES_IN_ALL: usize = MOST_RECORDS * MOST_MOVES as usize;

// The longest text that a board can have: 512 positions with 16 moves each.
const LONGEST_TEXT: usize = 36_366;

// The line that stands for a refusal, in the digits of board text.
pub fn refusal_line(number: u8, line: u16) -> [u8; 9]
    ensures { result ≡ refusal_line number line }
{
    let [high, low] = hex2(number);
    let [a, b, c, d] = hex4(line);
    [b'1', b'F', high, low, a, b, c, d, b'\n']
}

// The board's text, in memory of its own. It fails only for want of memory.
pub fn text_of<B: Board>(heap: Global, board: &B) -> Result<Vec<u8>, AllocError>
    ensures { IfOk result (λ v. v.items ≡ text_of (B.Board.meaning board.now)) }
{
    let mut text = vec![in heap; 0u8; LONGEST_TEXT]?;
    // No text is longer, so this is not refused.
    let length = write(board, text.as_mut_slice()).unwrap();
    text.truncate(length);
    Ok(text)
}

// A text that was read and written back, and what is told of it.
#[derive(Drop)]
pub struct Formatted {
    // The board's one text, or the refusal's line.
    pub text: Vec<u8>,
    // The board in numbers, or the refusal with its line.
    pub outcome: Result<Summary, (TextRefusal, u16)>,
}

impl Formatted {
    // A board, written and told.
    fn of_board<B: Board>(heap: Global, board: &B) -> Result<Formatted, AllocError>
        ensures { IfOk result (λ f. (f.text.items ≡ text_of (B.Board.meaning board.now)) × (f.outcome ≡ Ok (summary_of (B.Board.meaning board.now)))) }
    {
        let text = text_of(heap, board)?;
        let outcome = Ok(summarise(board));
        Ok(Formatted { text, outcome })
    }

    // A refusal, written and told.
    fn of_refusal(heap: Global, refusal: TextRefusal, line: u16) -> Result<Formatted, AllocError>
        ensures { IfOk result (λ f. (f.text.items ≡ refusal_line (number_of refusal) line) × (f.outcome ≡ Err (refusal, line))) }
    {
        let text = Vec::from_slice(heap, &refusal_line(refusal.number(), line))?;
        let outcome = Err((refusal, line));
        Ok(Formatted { text, outcome })
    }
}

// Reads a board text and writes the board back, or tells why the text is refused. It fails only for
// want of memory.
pub fn reformat(heap: Global, input: &[u8]) -> Result<Formatted, AllocError>
    ensures { IfOk result (λ f. (f.text.items ≡ formatted (verdict input.now)) × (f.outcome ≡ told (verdict input.now))) }
{
    let mut records = vec![in heap; Record::BLANK; MOST_RECORDS]?;
    let mut moves = vec![in heap; 0u16; MOST_MOVES_IN_ALL]?;
    match read(input, &mut records, &mut moves) {
        Ok((count, _)) => Formatted::of_board(heap, &Table::new(&records[..count], &moves)),
        Err((refusal, line)) => Formatted::of_refusal(heap, refusal, line),
    }
}
