ghost use Rattle.std.proofs.Common.{rules};
ghost use Rattle.watch.specs.Refusals.{number_of};

use board::Refusal;

// Why a watcher was not filled, or not put on a board.
#[derive(Clone, Copy, Debug, PartialEq, Eq)]
pub enum WatcherRefusal {
    // A watcher has 1 to 16 states.
    BadCount = 23,
    // The state or a next state is not there, or the label is above 15.
    BadState = 24,
    // The board would have more than 512 positions.
    TooLarge = 25,
}

impl Refusal for WatcherRefusal {
    ghost known_as = { number_of };

    ghost above_0 = { Prim.search rules };

    fn number(&self) -> u8 {
        *self as u8
    }
}
