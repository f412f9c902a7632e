ghost use Rattle.std.specs.Prelude.{◌≡◌, Bool, length, nat_eq};
ghost use Rattle.board.specs.Spot.{Spot, Tests, all_moves, how_many};

use crate::board::Board;

// How many positions pass the test, which is asked for each by its number.
fn count_where<B: Board, F: Fn(u16) -> bool>(board: &B, passes: F) -> u16
    requires { F.IsAlwaysCallable passes }
    ensures { (test : Spot → Bool) → Tests (F.post passes) test (B.Board.meaning board.now) → result ≡ how_many test (B.Board.meaning board.now) }
{
    // No more than there are positions, so that the cast loses nothing.
    (0..board.count()).filter(|v| passes(*v)).count() as u16
}

// How many positions the side with this number moves at. Any number may be asked for: one that stands for
// no side counts none.
pub fn count_side<B: Board>(board: &B, side: u8) -> u16
    ensures { result ≡ how_many (λ s. nat_eq s.side side) (B.Board.meaning board.now) }
{
    count_where(board, |v| board.side(v) as u8 == side)
}

// How many positions bear the label.
pub fn count_label<B: Board>(board: &B, label: u8) -> u16
    ensures { result ≡ how_many (λ s. nat_eq s.label label) (B.Board.meaning board.now) }
{
    count_where(board, |v| board.label(v) == label)
}

// How many moves all positions have together.
pub fn count_moves<B: Board>(board: &B) -> u16
    ensures { result ≡ length (all_moves (B.Board.meaning board.now)) }
{
    (0..board.count()).map(|v| u16::from(board.moves(v))).sum()
}
