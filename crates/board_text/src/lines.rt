ghost use Rattle.std.specs.Prelude.{◌≡◌, ◌+◌, ◌<◌, ◌==◌, Ok, Err, MatchResult, position};
ghost use Rattle.board_text.specs.Verdict.{next_line, end_in};

use crate::line::{Line, Refused};
use crate::refusals::TextRefusal;

// A view over the lines of a text.
#[derive(Clone, Copy)]
pub(crate) struct Lines<'a> {
    // The text after the lines that were taken.
    pub(crate) rest: &'a [u8],
    // How many lines were taken.
    pub(crate) taken: u16,
}

// Where the first LF stands.
fn line_feed(text: &[u8]) -> Option<usize>
    ensures { result ≡ position (λ c. c == 10) text.now }
{
    text.iter().position(|byte| *byte == b'\n')
}

impl<'a> Lines<'a> {
    pub(crate) fn new(text: &'a [u8]) -> Lines<'a>
        ensures rest { result.rest.now ≡ text.now }
        ensures taken { result.taken ≡ 0 }
    {
        Lines {
            rest: text,
            taken: 0,
        }
    }

    // Takes the next line, without its LF.
    pub(crate) fn next(&mut self) -> Result<Line<'a>, Refused>
        requires { self.old.taken < 1000 }
        ensures line { MatchResult result (λ l. next_line (self.old.taken + 1) self.old.rest.now ≡ Ok (l.digits.now, self.new.rest.now)) (λ e. next_line (self.old.taken + 1) self.old.rest.now ≡ Err e) }
        ensures taken { MatchResult result (λ l. (l.number ≡ self.old.taken + 1) × (self.new.taken ≡ self.old.taken + 1)) (λ _. self.new ≡ self.old) }
    {
        let number = self.taken + 1;
        let Some(end) = line_feed(self.rest) else {
            return Err((TextRefusal::NoLine, number));
        };
        let line = Line {
            digits: &self.rest[..end],
            number,
        };
        if !line.is_frame() {
            return Err(line.refused(TextRefusal::NotDigits));
        }
        self.rest = &self.rest[end + 1..];
        self.taken = number;
        Ok(line)
    }

    // Takes the last line, which gives the total, and sees that nothing follows it.
    pub(crate) fn end(&mut self, total: u16) -> Result<(), Refused>
        requires { self.old.taken < 900 }
        ensures { result ≡ end_in total (self.old.taken + 1) self.old.rest.now }
    {
        self.next()?.total(total)?;
        if self.rest.is_empty() {
            return Ok(());
        }
        let line = self.next()?;
        Err(line.refused(TextRefusal::NotDue))
    }
}
