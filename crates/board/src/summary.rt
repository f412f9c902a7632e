ghost use Rattle.std.specs.Prelude.{◌≡◌};
ghost use Rattle.board.specs.Summary.{summary_of};

use crate::board::Board;
use crate::counts::{count_label, count_moves, count_side};
use crate::side::Side;
use std::array;

// What there is on a board, in numbers.
#[derive(Clone, Copy, Debug, PartialEq, Eq)]
pub struct Summary {
    // Positions at which the controller moves.
    pub controller: u16,
    // Positions at which the kiln moves.
    pub kiln: u16,
    // Positions that bear each label.
    pub labels: [u16; 16],
    // Moves of all positions.
    pub moves: u16,
}

// What there is on the board.
pub fn summarise<B: Board>(board: &B) -> Summary
    ensures { result ≡ summary_of (B.Board.meaning board.now) }
{
    Summary {
        controller: count_side(board, Side::Controller as u8),
        kiln: count_side(board, Side::Kiln as u8),
        // A label is below 16, so that the cast loses nothing.
        labels: array::from_fn(|label| count_label(board, label as u8)),
        moves: count_moves(board),
    }
}
