ghost use Rattle.std.specs.Prelude.{◌≡◌, ◌++◌, ◌<◌, ◌≤◌, ℕ, take, drop};
ghost use Rattle.meter.specs.Counters.{AnswersLast};

use crate::reading::{COUNTERS, Counters};

pub(crate) const ZEROS: Counters = [0; COUNTERS];

// The counters of `front`, from `place` on those of `tail`.
pub(crate) fn with_tail(mut front: Counters, tail: &Counters, place: usize) -> Counters
    requires { place ≤ 8 }
    ensures { result ≡ take place front ++ drop place tail.now }
{
    front[place..].copy_from_slice(&tail[place..]);
    front
}

// The last of the first `places` places at which the test holds. The search goes downward and yields the
// place by `break`: a form that the project keeps (docs/DECISIONS.md).
pub(crate) fn last_where<F: Fn(usize) -> bool>(places: usize, test: F) -> Option<usize>
    requires { (k : ℕ) → k < places → F.pre test k }
    ensures { AnswersLast (F.post test) places result }
{
    let mut place = places;
    loop {
        if place == 0 {
            break None;
        }
        place -= 1;
        if test(place) {
            break Some(place);
        }
    }
}
