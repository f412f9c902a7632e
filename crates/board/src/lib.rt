// Boards: what one means, the questions that every board answers, the board that shows a table, and the
// one of a pool of buffers.
#![tactic(auto)]

mod board;
mod counts;
mod limits;
mod pool;
mod pool_position;
mod pool_state;
mod records;
mod refusals;
mod side;
mod soundness;
mod summary;
mod table;

pub use board::Board;
pub use counts::{count_label, count_moves, count_side};
pub use limits::{HIGHEST_LABEL, HIGHEST_SIDE, MOST_BUFFERS, MOST_MOVES, MOST_POSITIONS};
pub use pool::Pool;
pub use pool_state::PoolState;
pub use records::Record;
pub use refusals::{PoolRefusal, Refusal, TableRefusal};
pub use side::{Side, UnknownSide};
pub use summary::{Summary, summarise};
pub use table::Table;
