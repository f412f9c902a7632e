// The limits by name: those that every board keeps, and that of pools.
use crate::side::Side;

// The most positions of a board; the fewest is 1.
pub const MOST_POSITIONS: u16 = 512;

// The most moves of a position.
pub const MOST_MOVES: u16 = 16;

// The highest number of a side; a record and a line of text may hold any.
pub const HIGHEST_SIDE: u8 = Side::Kiln as u8;

pub const HIGHEST_LABEL: u8 = 15;

// The most buffers of a pool; the fewest is 1.
pub const MOST_BUFFERS: u8 = 7;
