ghost use Rattle.std.specs.Prelude.{◌≡◌, is_ok, IfOk, IfSome, if◌then◌else◌, Some, None, Decides, MatchResult, nat_lt, option_map};
ghost use Rattle.board.specs.Pool.{PoolSize, pool_size, ShowsPool, pool_count, pool_state, pool_board};
ghost use Rattle.board.specs.PoolFair.{pool_fair};
ghost use Rattle.board.specs.Refusals.{number_answered, pool_number_of};
ghost use Rattle.board.specs.declared.refusals.PoolRefusal.TheVariants.{BadBuffers};

use crate::board::Board;
use crate::limits::MOST_BUFFERS;
use crate::pool_position::PoolPosition;
use crate::refusals::PoolRefusal;
use crate::side::Side;

// The board on which the controller hands the buffers of a pool to two tasks, and the kiln has them
// given back. Nothing of it is stored: each answer is computed from the position's number.
#[derive(Clone, Copy)]
pub struct Pool {
    buffers: u8,
    ghost known: { PoolSize buffers },
}

impl Pool {
    // The pool board with so many buffers, or refusal 26.
    pub fn new(buffers: u8) -> Result<Pool, PoolRefusal>
        ensures answer { MatchResult result (λ p. p.buffers ≡ buffers) (λ e. e ≡ BadBuffers) }
        ensures number { number_answered pool_number_of result ≡ (if pool_size buffers then 0 else 26) }
        ensures means { Decides (is_ok result) (PoolSize buffers) }
        ensures shows { IfOk result (λ p. ShowsPool buffers (pool_board p.buffers)) }
    {
        if buffers == 0 || buffers > MOST_BUFFERS {
            return Err(PoolRefusal::BadBuffers);
        }
        Ok(Pool { buffers })
    }

    // How many buffers there are.
    pub fn buffers(&self) -> u8
        ensures { result ≡ self.now.buffers }
    {
        self.buffers
    }

    // The position that bears the number, if there is one.
    fn position(&self, number: u16) -> Option<PoolPosition>
        ensures buffers { IfSome result (λ p. p.pool.buffers ≡ self.now.buffers) }
        ensures state { option_map (λ p. p.state) result ≡ (if nat_lt number (pool_count self.now.buffers) then Some (pool_state self.now.buffers number) else None) }
    {
        PoolPosition::numbered(*self, number)
    }
}

impl Board for Pool {
    ghost meaning = { λ p. pool_board p.buffers };

    ghost fair = { λ p. pool_fair p.buffers p.known.1 };

    fn count(&self) -> u16 {
        let width = u16::from(self.buffers) + 1;
        width * width * 2
    }

    fn side(&self, position: u16) -> Side {
        self.position(position)
            .map_or(Side::Controller, |p| p.state().side)
    }

    fn label(&self, position: u16) -> u8 {
        self.position(position).map_or(0, |p| p.state().label())
    }

    fn moves(&self, position: u16) -> u8 {
        self.position(position).map_or(0, |p| p.moves())
    }

    fn move_at(&self, position: u16, place: u8) -> u16 {
        self.position(position)
            .and_then(|p| p.move_at(place))
            .unwrap_or(0)
    }
}
