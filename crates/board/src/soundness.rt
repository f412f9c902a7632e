ghost use Rattle.std.specs.Prelude.{◌≡◌};
ghost use Rattle.board.specs.Rising.{rising};
ghost use Rattle.board.specs.Table.{sound_table, sound_record};

use crate::limits::{HIGHEST_LABEL, HIGHEST_SIDE, MOST_MOVES, MOST_POSITIONS};
use crate::records::Record;

// Whether the moves stay below `count` and strictly ascend. Of a slice alone: a test of any iterator would
// need a premise, and be public for board text, where no function has one. One fold, since two walks over a
// few moves took most of twice the time.
fn ascend_below(count: u16, moves: &[u16]) -> bool
    ensures { result ≡ rising count 0 moves.now }
{
    // The lowest position that the next move may lead to, if this one may stand here.
    let next = |low, m: &u16| {
        if low <= *m && *m < count {
            Some(*m + 1)
        } else {
            None
        }
    };
    moves.iter().try_fold(0, next).is_some()
}

// Whether the record keeps the limits in a table of `count` positions over these moves.
fn keeps_limits(count: u16, record: &Record, moves: &[u16]) -> bool
    ensures { result ≡ sound_record count moves.now «record».now }
{
    if record.side > HIGHEST_SIDE || record.label > HIGHEST_LABEL || record.count > MOST_MOVES {
        return false;
    }
    let start = usize::from(record.first);
    let end = start + usize::from(record.count);
    record.count == 0 || end <= moves.len() && ascend_below(count, &moves[start..end])
}

// Whether the two slices show a board.
pub(crate) fn is_sound(records: &[Record], moves: &[u16]) -> bool
    ensures { result ≡ sound_table records.now moves.now }
{
    if records.is_empty() || records.len() > usize::from(MOST_POSITIONS) {
        return false;
    }
    // At most 512, so that the cast loses nothing.
    let count = records.len() as u16;
    records
        .iter()
        .all(|record| keeps_limits(count, record, moves))
}
