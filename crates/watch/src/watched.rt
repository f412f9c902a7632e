ghost use Rattle.std.specs.Prelude.{◌≡◌, if◌then◌else◌};
ghost use Rattle.board.specs.Refusals.{number_answered, refused_unless};
ghost use Rattle.watch.specs.Refusals.{number_of};
ghost use Rattle.watch.specs.Watched.{Watches, small_enough, states_on, next_on, watched_board};
ghost use Rattle.watch.specs.WatchedFair.{watched_fair};

use crate::refusals::WatcherRefusal;
use crate::watcher::Watcher;
use board::{Board, MOST_POSITIONS, Side};

// A board under a watcher of S states: at v × S + q stands position v of the board below, with the watcher
// in state q. Where there would be too many positions, state 0 alone counts.
#[derive(Clone, Copy, Drop)]
pub struct Watched<B> {
    board: B,
    watcher: Watcher,
}

// Whether the board has few enough positions in all states.
fn is_small_enough<B: Board>(board: &B, watcher: &Watcher) -> bool
    ensures { result ≡ small_enough (B.Board.meaning board.now) watcher.now }
{
    board.count() * u16::from(watcher.count()) <= MOST_POSITIONS
}

impl<B: Board> Watched<B> {
    // The question beforehand: whether there are few enough positions, or refusal 25.
    pub fn check(board: &B, watcher: &Watcher) -> Result<(), WatcherRefusal>
        ensures answer { result ≡ refused_unless (small_enough (B.Board.meaning board.now) watcher.now) WatcherRefusal.TooLarge }
        ensures number { number_answered number_of result ≡ (if small_enough (B.Board.meaning board.now) watcher.now then 0 else 25) }
    {
        if is_small_enough(board, watcher) {
            Ok(())
        } else {
            Err(WatcherRefusal::TooLarge)
        }
    }

    // The board under the watcher, whatever numbers stand in it.
    pub fn new(board: B, watcher: Watcher) -> Watched<B>
        ensures board { result.board ≡ board }
        ensures watcher { result.watcher ≡ watcher }
        ensures shows { Watches (B.Board.meaning board) watcher (watched_board (B.Board.meaning result.board) result.watcher) }
    {
        Watched { board, watcher }
    }

    // How many states count on this board.
    fn states(&self) -> u16
        ensures { result ≡ states_on (B.Board.meaning self.now.board) self.now.watcher }
    {
        if is_small_enough(&self.board, &self.watcher) {
            u16::from(self.watcher.count())
        } else {
            1
        }
    }

    // The state after `state` under the label, among those that count.
    fn next(&self, state: u8, label: u8) -> u8
        ensures { result ≡ next_on (B.Board.meaning self.now.board) self.now.watcher state label }
    {
        if is_small_enough(&self.board, &self.watcher) {
            self.watcher.next(state, label)
        } else {
            0
        }
    }
}

impl<B: Board> Board for Watched<B> {
    ghost meaning = { λ d. watched_board (B.Board.meaning d.board) d.watcher };

    ghost fair = { λ d. watched_fair (B.Board.meaning d.board) d.watcher (B.Board.fair d.board) };

    fn count(&self) -> u16 {
        self.board.count() * self.states()
    }

    fn side(&self, position: u16) -> Side {
        self.board.side(position / self.states())
    }

    fn label(&self, position: u16) -> u8 {
        if position < self.count() {
            // A state is below 16, so that the cast loses nothing.
            self.watcher.label((position % self.states()) as u8)
        } else {
            0
        }
    }

    fn moves(&self, position: u16) -> u8 {
        self.board.moves(position / self.states())
    }

    fn move_at(&self, position: u16, place: u8) -> u16 {
        let states = self.states();
        let below = position / states;
        if place < self.board.moves(below) {
            let to = self.board.move_at(below, place);
            // The watcher steps by the label of the position that is left.
            // A state is below 16.
            let state = (position % states) as u8;
            let next = u16::from(self.next(state, self.board.label(below)));
            to * states + next
        } else {
            0
        }
    }
}
