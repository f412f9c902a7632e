ghost use Rattle.std.specs.Prelude.{◌≡◌, ◌<◌, ℕ};
ghost use Rattle.std.proofs.Common.{rules};
ghost use Rattle.board.specs.Refusals.{number_of, pool_number_of};

// Why a call was refused. Each refusal has a number, by which it is known outside; 0 is left for what was
// not refused. Each impl casts an enum of its own, which code over any of them cannot.
pub trait Refusal: Copy {
    ghost known_as: { Self → ℕ };

    // The number by which the refusal is known outside.
    fn number(&self) -> u8
        ensures { result ≡ known_as self.now };

    ghost above_0: { (x : Self) → 0 < known_as x };
}

// Why a table was refused.
#[derive(Clone, Copy, Debug, PartialEq, Eq)]
pub enum TableRefusal {
    // The slices keep not all of a board's limits, or a record's moves lie outside the move slice.
    Unsound = 20,
}

impl Refusal for TableRefusal {
    ghost known_as = { number_of };

    ghost above_0 = { Prim.search rules };

    fn number(&self) -> u8 {
        *self as u8
    }
}

// Why there is no such pool board.
#[derive(Clone, Copy, Debug, PartialEq, Eq)]
pub enum PoolRefusal {
    // A pool has 1 to 7 buffers.
    BadBuffers = 26,
}

impl Refusal for PoolRefusal {
    ghost known_as = { pool_number_of };

    ghost above_0 = { Prim.search rules };

    fn number(&self) -> u8 {
        *self as u8
    }
}
