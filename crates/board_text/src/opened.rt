ghost use Rattle.std.specs.Prelude.{◌≡◌, ◌≤◌, Ok, Err, MatchResult};
ghost use Rattle.board_text.specs.Verdict.{opening};

use crate::line::Refused;
use crate::lines::Lines;

// A text whose first line was taken. The lines of `count` positions are due, and then the last line.
#[derive(Clone, Copy)]
pub(crate) struct Opened<'a> {
    pub(crate) lines: Lines<'a>,
    pub(crate) count: u16,
    ghost first: { lines.taken ≡ 1 },
    ghost few: { count ≤ 512 },
}

impl<'a> Opened<'a> {
    // Takes the first line, which gives the number of positions.
    pub(crate) fn new(text: &'a [u8]) -> Result<Opened<'a>, Refused>
        ensures { MatchResult result (λ s. opening text.now ≡ Ok (s.count, s.lines.rest.now)) (λ e. opening text.now ≡ Err e) }
    {
        let mut lines = Lines::new(text);
        let count = lines.next()?.count()?;
        Ok(Opened { lines, count })
    }
}
