ghost use Rattle.std.specs.Prelude.{◌≡◌, ◌+◌, IfOk, Ok, Err, MatchResult};
ghost use Rattle.board_text.specs.Passes.{tallied, judged, total_of};
ghost use Rattle.board_text.specs.Verdict.{spots_in};

use crate::line::Refused;
use crate::lines::Lines;
use crate::opened::Opened;

impl<'a> Opened<'a> {
    // Takes the lines of the positions: how many moves they have, and the lines that are left.
    fn tally(&self) -> Result<(u16, Lines<'a>), Refused>
        ensures total { MatchResult result (λ p. tallied 0 (spots_in self.now.count self.now.count 2 self.now.lines.rest.now) ≡ Ok (p.0, p.1.rest.now)) (λ e. tallied 0 (spots_in self.now.count self.now.count 2 self.now.lines.rest.now) ≡ Err e) }
        ensures taken { IfOk result (λ p. p.1.taken ≡ self.now.count + 1) }
    {
        let mut lines = self.lines;
        let mut total = 0;
        for _ in 0..self.count {
            total += lines.next()?.moves_on(self.count)?;
        }
        Ok((total, lines))
    }

    // How many moves the board has, or the first fault after the first line.
    pub(crate) fn survey(&self) -> Result<u16, Refused>
        ensures { result ≡ total_of (judged self.now) }
    {
        let (total, mut lines) = self.tally()?;
        lines.end(total)?;
        Ok(total)
    }
}
