ghost use Rattle.std.specs.Prelude.{◌≡◌, ◌<◌, false, length, IfSome, if◌then◌else◌, Some, None, nat_lt, option_map, slice_get, slice_index};
ghost use Rattle.board.specs.Pool.{InPool, clash, pool_count, pool_number, pool_state, pool_moves};
ghost use Rattle.board.specs.declared.side.Side.TheVariants.{Controller, Kiln};

use crate::pool::Pool;
use crate::pool_state::PoolState;
use crate::side::Side;

// A position of the board of a pool.
#[derive(Clone, Copy)]
pub(crate) struct PoolPosition {
    pool: Pool,
    state: PoolState,
    ghost inside: { InPool pool.buffers state },
}

impl PoolPosition {
    // The position that bears the number, if there is one.
    pub(crate) fn numbered(pool: Pool, number: u16) -> Option<PoolPosition>
        ensures buffers { IfSome result (λ p. p.pool.buffers ≡ pool.buffers) }
        ensures state { option_map (λ p. p.state) result ≡ (if nat_lt number (pool_count pool.buffers) then Some (pool_state pool.buffers number) else None) }
    {
        let width = u16::from(pool.buffers()) + 1;
        if number >= width * width * 2 {
            return None;
        }
        let pair = number / 2;
        let state = PoolState {
            first: pair / width,
            second: pair % width,
            side: if number % 2 == 0 {
                Side::Controller
            } else {
                Side::Kiln
            },
        };
        Some(PoolPosition { pool, state })
    }

    // The number of the position.
    fn number(self) -> u16
        ensures { result ≡ pool_number self.pool.buffers self.state }
    {
        let width = u16::from(self.pool.buffers()) + 1;
        (self.state.first * width + self.state.second) * 2 + self.state.side as u16
    }

    // Who has which buffer, and who moves.
    pub(crate) fn state(self) -> PoolState
        ensures { result ≡ self.state }
    {
        self.state
    }

    // How many moves the position has: one keeps what both tasks have; besides, the controller hands any
    // buffer to a task that has none, and the kiln has the one of a task that has one given back.
    pub(crate) fn moves(self) -> u8
        ensures { result ≡ length (pool_moves self.pool.buffers self.state) }
    {
        if self.state.clashes() {
            return 1;
        }
        match self.state.side {
            Side::Controller => 1 + self.state.idle() * self.pool.buffers(),
            Side::Kiln => 3 - self.state.idle(),
        }
    }

    // Where the move at `place` leads, if there is one.
    pub(crate) fn move_at(self, place: u8) -> Option<u16>
        ensures { result ≡ slice_get (pool_moves self.pool.buffers self.state) place }
    {
        if place < self.moves() {
            Some(self.after(u16::from(place)).number())
        } else {
            None
        }
    }

    // The position that the move at `place` leads to; a clash stays. That there is such a place is asked
    // here and of the two below; a type that knows it would be made in `move_at` alone.
    fn after(self, place: u16) -> PoolPosition
        requires { place < length (pool_moves self.pool.buffers self.state) }
        ensures pool { result.pool.buffers ≡ self.pool.buffers }
        ensures number { pool_number result.pool.buffers result.state ≡ slice_index (pool_moves self.pool.buffers self.state) place }
    {
        if self.state.clashes() {
            return self;
        }
        match self.state.side {
            Side::Controller => self.handed(place),
            Side::Kiln => self.given_back(place),
        }
    }

    // Where the controller's move at `place` leads: both tasks keep what they have, or one that has
    // no buffer is handed one.
    fn handed(self, place: u16) -> PoolPosition
        requires apart { clash self.state ≡ false }
        requires turn { self.state.side ≡ Controller }
        requires there { place < length (pool_moves self.pool.buffers self.state) }
        ensures pool { result.pool.buffers ≡ self.pool.buffers }
        ensures number { pool_number result.pool.buffers result.state ≡ slice_index (pool_moves self.pool.buffers self.state) place }
    {
        let buffers = u16::from(self.pool.buffers());
        let (first, second) = match (self.state.first, self.state.second) {
            (0, 0) if place > buffers => (place - buffers, 0),
            (0, 0) => (0, place),
            (0, second) => (place, second),
            (first, 0) => (first, place),
            (first, second) => (first, second),
        };
        let state = PoolState {
            first,
            second,
            side: Side::Kiln,
        };
        PoolPosition {
            pool: self.pool,
            state,
        }
    }

    // Where the kiln's move at `place` leads: the first task gives its buffer back, then the second,
    // then both keep what they have.
    fn given_back(self, place: u16) -> PoolPosition
        requires apart { clash self.state ≡ false }
        requires turn { self.state.side ≡ Kiln }
        requires there { place < length (pool_moves self.pool.buffers self.state) }
        ensures pool { result.pool.buffers ≡ self.pool.buffers }
        ensures number { pool_number result.pool.buffers result.state ≡ slice_index (pool_moves self.pool.buffers self.state) place }
    {
        let first = if place == 0 { 0 } else { self.state.first };
        // The second task's place is the next, or the same where the first has nothing to give back.
        let next = if self.state.first == 0 { 0 } else { 1 };
        let second = if place == next { 0 } else { self.state.second };
        let state = PoolState {
            first,
            second,
            side: Side::Controller,
        };
        PoolPosition {
            pool: self.pool,
            state,
        }
    }
}
