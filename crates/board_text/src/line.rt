ghost use Rattle.std.specs.Prelude.{◌≡◌, ◌≤◌, cond, length, is_ok, IfOk, Ok, Err, MatchResult};
ghost use Rattle.std.specs.Result.{result_map_both};
ghost use Rattle.board_text.specs.Kinds.{kind_number};
ghost use Rattle.board_text.specs.SpotLines.{position_of};
ghost use Rattle.board_text.specs.Verdict.{is_frame, is_number_line, is_spot_line, number_in, count_in, spot_in, spot_written, total_in};
ghost use Rattle.board_text.specs.declared.refusals.TextRefusal.TheVariants.{NotDue};

use crate::digits::{all_digits, four_digits, two_digits};
use crate::kinds::LineKind;
use crate::refusals::TextRefusal;
use crate::spot_line::SpotLine;
use board::{HIGHEST_LABEL, HIGHEST_SIDE, MOST_MOVES, MOST_POSITIONS};

// A refusal, and the number of the line where it stands.
pub(crate) type Refused = (TextRefusal, u16);

// A line of a text, without its LF.
#[derive(Clone, Copy)]
pub(crate) struct Line<'a> {
    pub(crate) digits: &'a [u8],
    // Its number in the text, counted from 1.
    pub(crate) number: u16,
}

impl<'a> Line<'a> {
    // The refusal of this line.
    pub(crate) fn refused(&self, refusal: TextRefusal) -> Refused
        ensures { result ≡ (refusal, self.now.number) }
    {
        (refusal, self.number)
    }

    // Whether the line has digits alone, and an even number of them.
    pub(crate) fn is_frame(&self) -> bool
        ensures { result ≡ is_frame self.now.digits.now }
    {
        self.digits.len() % 2 == 0 && all_digits(self.digits)
    }

    // The number that the line writes, if it is of this kind.
    fn number_written(&self, kind: LineKind) -> Result<u16, Refused>
        ensures { result ≡ cond (is_number_line (kind_number kind) self.now.digits.now) (Ok (number_in self.now.digits.now)) (Err (NotDue, self.now.number)) }
    {
        match self.digits {
            [b'0', k, a, b, c, d] if *k == kind.digit() => Ok(four_digits(*a, *b, *c, *d)),
            _ => Err(self.refused(TextRefusal::NotDue)),
        }
    }

    // The number of positions that the first line gives.
    pub(crate) fn count(&self) -> Result<u16, Refused>
        ensures count { result ≡ count_in self.now.number self.now.digits.now }
        ensures few { IfOk result (λ n. n ≤ 512) }
    {
        let count = self.number_written(LineKind::Count)?;
        if count == 0 || count > MOST_POSITIONS {
            return Err(self.refused(TextRefusal::BadCount));
        }
        Ok(count)
    }

    // Whether the last line gives this total.
    pub(crate) fn total(&self, total: u16) -> Result<(), Refused>
        ensures { result ≡ total_in total self.now.number self.now.digits.now }
    {
        let written = self.number_written(LineKind::Total)?;
        if written != total {
            return Err(self.refused(TextRefusal::BadTotal));
        }
        Ok(())
    }

    // What the line writes as that of a position.
    pub(crate) fn spot(&self) -> Result<SpotLine<'a>, Refused>
        ensures form { is_ok result ≡ is_spot_line self.now.digits.now }
        ensures spot { MatchResult result (λ s. position_of s ≡ spot_written self.now.digits.now) (λ e. e ≡ (NotDue, self.now.number)) }
    {
        match self.digits {
            [b'0', k, s0, s1, l0, l1, moves @ ..]
                if *k == LineKind::Spot.digit()
                    && moves.len() <= 4 * usize::from(MOST_MOVES)
                    && moves.len() % 4 == 0 => {
                Ok(SpotLine {
                    side: two_digits(*s0, *s1),
                    label: two_digits(*l0, *l1),
                    digits: moves,
                })
            }
            _ => Err(self.refused(TextRefusal::NotDue)),
        }
    }

    // How many moves the line of a position gives, on a board of `count` positions.
    pub(crate) fn moves_on(&self, count: u16) -> Result<u16, Refused>
        ensures moves { result ≡ result_map_both (λ s. length s.moves) (λ e. e) (spot_in count self.now.number self.now.digits.now) }
        ensures few { IfOk result (λ m. m ≤ 16) }
    {
        let spot = self.spot()?;
        if spot.side > HIGHEST_SIDE || spot.label > HIGHEST_LABEL {
            return Err(self.refused(TextRefusal::BadSpot));
        }
        if !spot.rises(count) {
            return Err(self.refused(TextRefusal::BadMove));
        }
        Ok(spot.count())
    }
}
