ghost use Rattle.std.specs.Prelude.{◌≡◌, List};
ghost use Rattle.board.specs.Fair.{Fair};
ghost use Rattle.board.specs.Side.{side_number};
ghost use Rattle.board.specs.Spot.{Spot, count_of, side_of, label_of, moves_of, move_of};

use crate::side::Side;

// A board (the arena of a parity game): 1 to 512 positions, numbered from 0. Each question has one
// answer, given by the board's meaning; where a position or a place is missing, it is 0, the controller's
// number.
pub trait Board {
    ghost meaning: { Self → List Spot };

    ghost fair: { (b : Self) → Fair (meaning b) };

    // How many positions there are.
    fn count(&self) -> u16
        ensures { result ≡ count_of (meaning self.now) };

    // Who moves at the position.
    fn side(&self, position: u16) -> Side
        ensures { side_number result ≡ side_of (meaning self.now) position };

    // The position's label, 0 to 15.
    fn label(&self, position: u16) -> u8
        ensures { result ≡ label_of (meaning self.now) position };

    // How many moves the position has, at most 16.
    fn moves(&self, position: u16) -> u8
        ensures { result ≡ moves_of (meaning self.now) position };

    // Where the move at `place` leads, places counted from 0.
    fn move_at(&self, position: u16, place: u8) -> u16
        ensures { result ≡ move_of (meaning self.now) position place };
}
