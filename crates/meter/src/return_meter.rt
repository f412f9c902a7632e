ghost use Rattle.std.specs.Prelude.{◌≡◌, ◌+◌, ◌^◌, ◌<◌, ◌≤◌, ◌⊎◌, true, length, Decides, nat_le};
ghost use Rattle.meter.specs.Counters.{Smaller, total, within, spread, number, raised, lowered};
ghost use Rattle.meter.specs.Marked.{gauge_of};
ghost use Rattle.meter.specs.Return.{CountsAsMemory, counts_as, return_scale, limits_on};
ghost use Rattle.meter.specs.ReturnLaws.{return-laws};

use crate::counters::{ZEROS, last_where, with_tail};
use crate::meter::Meter;
use crate::reading::{Counters, ReturnReading};
use crate::seen::Seen;
use board::{Board, HIGHEST_LABEL, count_label};
use std::array;

// The return meter: a counter for each odd label, which leaving the label raises and leaving a smaller one
// resets; a full counter carries to those of smaller labels. The limits are how many positions of a board
// bear each odd label.
#[derive(Clone, Copy)]
pub struct ReturnMeter {
    limits: Counters,
    ghost few: { (length limits ≡ 8) × (total limits ≤ 512) },
}

impl ReturnMeter {
    // The meter counted on a board.
    pub fn counted_on<B: Board>(board: &B) -> ReturnMeter
        ensures { result.limits ≡ limits_on (B.Board.meaning board.now) }
    {
        ReturnMeter {
            // A place is below 8, so that the cast loses nothing.
            limits: array::from_fn(|k| count_label(board, 2 * k as u8 + 1)),
        }
    }

    // The limit of each counter.
    pub fn limits(&self) -> Counters
        ensures { result ≡ self.now.limits }
    {
        self.limits
    }

    // How many memories there are: the product of all limits, each taken one higher.
    pub fn memories(&self) -> u64
        ensures value { result ≡ spread self.now.limits }
        ensures few { (1 ≤ result) × (result ≤ 2 ^ 49) }
    {
        let counts = self.limits.iter().map(|limit| u64::from(*limit) + 1);
        counts.product()
    }

    // The reading's rank: 0 for none, one more than its number for a memory, and then overflow.
    pub fn rank(&self, x: ReturnReading) -> u64
        ensures value { result ≡ (gauge_of (return_scale self.now.limits)).rank x }
        ensures mixed { CountsAsMemory self.now.limits x → result ≡ number self.now.limits x.content + 1 }
    {
        match self.seen(x) {
            Seen::None => 0,
            Seen::Memory(counters) => self.number(&counters) + 1,
            Seen::Overflow => self.memories() + 1,
        }
    }

    // What the reading counts as.
    fn seen(&self, x: ReturnReading) -> Seen<Counters>
        ensures { result ≡ counts_as self.now.limits x }
    {
        Seen::of(x, self.fits(&x.content))
    }

    // Whether no counter is above its limit.
    fn fits(&self, counters: &Counters) -> bool
        ensures { result ≡ within self.now.limits counters.now }
    {
        counters
            .iter()
            .zip(&self.limits)
            .all(|(count, limit)| count <= limit)
    }

    // The counters as one number in mixed radix, the first weighing most.
    fn number(&self, counters: &Counters) -> u64
        requires { within self.now.limits counters.now ≡ true }
        ensures { result ≡ number self.now.limits counters.now }
    {
        counters
            .iter()
            .zip(&self.limits)
            .fold(0, |number, (count, limit)| {
                number * (u64::from(*limit) + 1) + u64::from(*count)
            })
    }

    // One step up from the memory with these counters.
    fn raised(&self, counters: &Counters, label: u8) -> Seen<Counters>
        requires { label < 16 }
        ensures { result ≡ raised self.now.limits counters.now label }
    {
        let places = (usize::from(label) + 1) / 2;
        if label % 2 == 0 {
            return Seen::Memory(with_tail(*counters, &ZEROS, places));
        }
        match last_where(places, |k| counters[k] < self.limits[k]) {
            Some(place) => {
                let mut next = with_tail(*counters, &ZEROS, place + 1);
                next[place] = counters[place] + 1;
                Seen::Memory(next)
            }
            None => Seen::Overflow,
        }
    }

    // One step down from the memory with these counters. It differs from a step up in the test, in what the
    // later counters become, in the step of the one and in the end: a function of all four would say less.
    fn lowered(&self, counters: &Counters, label: u8) -> Seen<Counters>
        requires { label < 16 }
        ensures { result ≡ lowered self.now.limits counters.now label }
    {
        let places = (usize::from(label) + 1) / 2;
        if label % 2 == 0 {
            return Seen::Memory(with_tail(*counters, &self.limits, places));
        }
        match last_where(places, |k| counters[k] > 0) {
            Some(place) => {
                let mut next = with_tail(*counters, &self.limits, place + 1);
                next[place] = counters[place] - 1;
                Seen::Memory(next)
            }
            None => Seen::None,
        }
    }
}

impl Meter for ReturnMeter {
    type Reading = ReturnReading;

    ghost gauge = { λ m. gauge_of (return_scale m.limits) };

    ghost laws = { λ m. return-laws m.limits m.few.0 m.few.1 };

    fn none(&self) -> ReturnReading {
        Seen::None.into()
    }

    fn least(&self) -> ReturnReading {
        Seen::Memory(ZEROS).into()
    }

    fn greatest(&self) -> ReturnReading {
        Seen::Memory(self.limits).into()
    }

    fn overflow(&self) -> ReturnReading {
        Seen::Overflow.into()
    }

    // Two memories are ordered by the first counter that differs.
    fn at_most(&self, x: ReturnReading, y: ReturnReading) -> bool
        ensures value { result ≡ nat_le ((gauge_of (return_scale self.now.limits)).rank x) ((gauge_of (return_scale self.now.limits)).rank y) }
        ensures order { CountsAsMemory self.now.limits x → CountsAsMemory self.now.limits y → Decides result ((x.content ≡ y.content) ⊎ Smaller x.content y.content) }
    {
        self.seen(x) <= self.seen(y)
    }

    fn up(&self, x: ReturnReading, label: u8) -> ReturnReading {
        if label > HIGHEST_LABEL {
            return x;
        }
        self.seen(x)
            .and_then(|counters| self.raised(counters, label))
            .into()
    }

    fn down(&self, y: ReturnReading, label: u8) -> ReturnReading {
        if label > HIGHEST_LABEL {
            return y;
        }
        self.seen(y)
            .and_then(|counters| self.lowered(counters, label))
            .into()
    }
}
