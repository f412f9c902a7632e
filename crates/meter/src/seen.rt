ghost use Rattle.std.specs.Prelude.{◌≡◌};
ghost use Rattle.std.specs.Fn.{FnOnceReturnsAt};
ghost use Rattle.meter.specs.Marked.{by_mark, MatchSeen};

use crate::marks::{MEMORY, OVERFLOW};
use crate::reading::Reading;

// What a reading counts as, whatever stands in it. The order is that of readings.
#[derive(Clone, Copy, Debug, PartialEq, Eq, PartialOrd, Ord)]
pub enum Seen<C> {
    None,
    Memory(C),
    Overflow,
}

impl<C: Copy> Seen<C> {
    // By the mark, and by whether the content of a memory would be within its limits.
    pub(crate) fn of(reading: Reading<C>, fits: bool) -> Seen<C>
        ensures { result ≡ by_mark reading.mark fits reading.content }
    {
        match reading.mark {
            MEMORY if fits => Seen::Memory(reading.content),
            OVERFLOW => Seen::Overflow,
            _ => Seen::None,
        }
    }

    // None and overflow stay, a memory goes where the step leads it. The step takes a reference: of a closure
    // that passes an array on by value the check knows nothing, and each would have to write its clauses.
    pub(crate) fn and_then<F: FnOnce(&C) -> Seen<C>>(self, step: F) -> Seen<C>
        requires { F.IsAlwaysCallable step }
        ensures { MatchSeen self (result ≡ Seen.None) (λ content. FnOnceReturnsAt F.FnOnce step content result) (result ≡ Seen.Overflow) }
    {
        match self {
            Seen::None => Seen::None,
            Seen::Memory(content) => step(&content),
            Seen::Overflow => Seen::Overflow,
        }
    }
}
