ghost use Rattle.std.specs.Prelude.{◌≡◌};
ghost use Rattle.board.specs.Pool.{clash, idle, pool_label};

use crate::side::Side;

// Who has which buffer of a pool, and who moves. A buffer is a number, and 0 is none, since positions are
// numbered by just these.
#[derive(Clone, Copy)]
pub struct PoolState {
    // The buffer of the first task, 0 for none.
    pub first: u16,
    // The buffer of the second.
    pub second: u16,
    // The side that moves.
    pub side: Side,
}

impl PoolState {
    // Whether both tasks have the same buffer.
    pub(crate) fn clashes(self) -> bool
        ensures { result ≡ clash self }
    {
        self.first == self.second && self.first != 0
    }

    // How many tasks have no buffer.
    pub(crate) fn idle(self) -> u8
        ensures { result ≡ idle self }
    {
        match (self.first, self.second) {
            (0, 0) => 2,
            (0, _) | (_, 0) => 1,
            _ => 0,
        }
    }

    // 1 for a clash, 3 where no task has a buffer, else 2.
    pub(crate) fn label(self) -> u8
        ensures { result ≡ pool_label self }
    {
        if self.clashes() {
            1
        } else if self.first == 0 && self.second == 0 {
            3
        } else {
            2
        }
    }
}
