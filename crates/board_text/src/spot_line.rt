ghost use Rattle.std.specs.Prelude.{◌≡◌, ◌≤◌, length};

use crate::digits::Fours;
use board::Record;

// What the line of a position writes.
#[derive(Clone, Copy)]
pub(crate) struct SpotLine<'a> {
    // A number: a line may write any, and one that is no side is refused.
    pub(crate) side: u8,
    pub(crate) label: u8,
    // The digits of the moves, four for each.
    pub(crate) digits: &'a [u8],
    ghost few: { length digits.now ≤ 64 },
}

impl<'a> SpotLine<'a> {
    ghost use Rattle.board.specs.Rising.{rising};
    ghost use Rattle.board_text.specs.Digits.{fours};
    ghost use Rattle.board_text.specs.Reading.{record_of};
    ghost use Rattle.board_text.specs.SpotLines.{position_of};

    // Where the moves lead.
    pub(crate) fn moves(&self) -> Fours<'a>
        ensures { fours result.digits.now ≡ (position_of self.now).moves }
    {
        Fours {
            digits: self.digits,
        }
    }

    // How many moves there are.
    pub(crate) fn count(&self) -> u16
        ensures count { result ≡ length (position_of self.now).moves }
        ensures few { result ≤ 16 }
    {
        // At most 16, so that the cast loses nothing.
        (self.digits.len() / 4) as u16
    }

    // Whether the moves stay below `count` and strictly ascend. One fold, as `board` tests a slice of moves: a
    // second walk would read the digits anew.
    pub(crate) fn rises(&self, count: u16) -> bool
        ensures { result ≡ rising count 0 (position_of self.now).moves }
    {
        // The lowest position that the next move may lead to, if this one may stand here.
        let next = |low, m| {
            if low <= m && m < count {
                Some(m + 1)
            } else {
                None
            }
        };
        self.moves().try_fold(0, next).is_some()
    }

    // Its record, whose first move stands at the place `first`.
    pub(crate) fn record(&self, first: u16) -> Record
        ensures { result ≡ record_of first (position_of self.now) }
    {
        Record {
            side: self.side,
            label: self.label,
            first,
            count: self.count(),
        }
    }
}
