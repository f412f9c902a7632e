// What tests of several modules do alike.
use board::{Board, Refusal};

// The refusal's number, 0 where nothing is refused.
pub(crate) fn number_of<T: Drop, R: Refusal>(answer: Result<T, R>) -> u8 {
    answer.err().map_or(0, |refusal| refusal.number())
}

// Side, label and number of moves.
pub(crate) fn spot<B: Board>(board: &B, position: u16) -> (u8, u8, u8) {
    (
        board.side(position) as u8,
        board.label(position),
        board.moves(position),
    )
}
