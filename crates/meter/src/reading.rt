ghost use Rattle.meter.specs.Marked.{IsShown};

use crate::marks::{MEMORY, NONE, OVERFLOW};
use crate::seen::Seen;

// How many odd labels there are, 1 to 15, each with its counter.
pub const COUNTERS: usize = 8;

// The counters of the labels 1, 3, .. 15.
pub type Counters = [u16; COUNTERS];

// What a meter measures with: a mark and, under the mark of a memory, a content. Any mark and any content
// may stand in a reading.
#[derive(Clone, Copy, Debug, PartialEq, Eq)]
pub struct Reading<C> {
    pub mark: u8,
    pub content: C,
}

// The reading of a return meter.
pub type ReturnReading = Reading<Counters>;

// The reading of a deadline meter: its content is a number that grows towards the limit.
pub type DeadlineReading = Reading<u16>;

// None and overflow are written with the content that is default.
impl<C: Default> From<Seen<C>> for Reading<C> {
    ghost from_gives = { λ seen reading. IsShown C.is_default seen reading };

    fn from(seen: Seen<C>) -> Reading<C> {
        match seen {
            Seen::None => Reading {
                mark: NONE,
                content: C::default(),
            },
            Seen::Memory(content) => Reading {
                mark: MEMORY,
                content,
            },
            Seen::Overflow => Reading {
                mark: OVERFLOW,
                content: C::default(),
            },
        }
    }
}
