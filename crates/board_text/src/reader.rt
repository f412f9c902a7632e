ghost use Rattle.std.specs.Prelude.{◌≡◌, length};
ghost use Rattle.board_text.specs.Laws.{JudgedExactly};
ghost use Rattle.board_text.specs.Reading.{reading, counts, records_after, moves_after};

use crate::opened::Opened;
use crate::refusals::TextRefusal;
use board::Record;

// Reads a board text into the front of the two slices, and answers how many records and how many
// moves it took. The whole text is checked before anything is written: a refusal, with its line,
// leaves both slices as they were.
pub fn read(
    text: &[u8],
    records: &mut [Record],
    moves: &mut [u16],
) -> Result<(usize, usize), (TextRefusal, u16)>
    ensures answer { result ≡ counts (reading text.now (length records.old) (length moves.old)) }
    ensures records { records.new ≡ records_after (reading text.now (length records.old) (length moves.old)) records.old }
    ensures moves { moves.new ≡ moves_after (reading text.now (length records.old) (length moves.old)) moves.old }
    ensures exact { JudgedExactly text.now }
{
    let opened = Opened::new(text)?;
    let count = usize::from(opened.count);
    let total = usize::from(opened.survey()?);
    if records.len() < count || moves.len() < total {
        return Err((TextRefusal::NoRoom, 0));
    }
    opened.fill(records, moves);
    Ok((count, total))
}
