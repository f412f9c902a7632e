ghost use Rattle.std.specs.Prelude.{◌≡◌, if◌then◌else◌};
ghost use Rattle.board.specs.Refusals.{number_answered, refused_unless};
ghost use Rattle.watch.specs.Refusals.{number_of};
ghost use Rattle.watch.specs.Watcher.{stay_below, blank_watcher, good_count, good_state, states_of, watch_label, watch_next, with_state};

use crate::refusals::WatcherRefusal;
use board::HIGHEST_LABEL;

// The most states of a watcher; the fewest is 1.
pub const MOST_STATES: u8 = 16;

// One state of a watcher.
#[derive(Clone, Copy, Debug, PartialEq, Eq)]
pub struct WatcherState {
    pub label: u8,
    // The next state for every label.
    pub next: [u8; 16],
}

impl WatcherState {
    // The state of a new watcher: all numbers are 0.
    pub const BLANK: WatcherState = WatcherState {
        label: 0,
        next: [0; 16],
    };
}

// A watcher (a deterministic monitor). Every field is a plain number, the number of states beside the table
// too, so that it is filled in place and can be copied, and any of them may be spoilt:
// whoever reads keeps what is read out within the limits.
#[derive(Clone, Copy, Debug, PartialEq, Eq)]
pub struct Watcher {
    // How many states it has.
    pub states: u8,
    pub table: [WatcherState; 16],
}

// Whether every state of the list is below `count`.
fn stay_below(count: u8, states: &[u8]) -> bool
    ensures { result ≡ stay_below count states.now }
{
    states.iter().all(|state| *state < count)
}

impl Watcher {
    // One state, whose label and next states are 0.
    pub fn new() -> Watcher
        ensures { result ≡ blank_watcher 1 }
    {
        Watcher {
            states: 1,
            table: [WatcherState::BLANK; 16],
        }
    }

    // Makes it a watcher of so many states, all of them blank, or refuses by 23.
    pub fn set_states(&mut self, states: u8) -> Result<(), WatcherRefusal>
        ensures answer { result ≡ refused_unless (good_count states) WatcherRefusal.BadCount }
        ensures number { number_answered number_of result ≡ (if good_count states then 0 else 23) }
        ensures after { self.new ≡ (if good_count states then blank_watcher states else self.old) }
    {
        if states == 0 || states > MOST_STATES {
            return Err(WatcherRefusal::BadCount);
        }
        self.states = states;
        self.table = [WatcherState::BLANK; 16];
        Ok(())
    }

    // Fills one state, or refuses by 24.
    pub fn set_state(&mut self, state: u8, filled: WatcherState) -> Result<(), WatcherRefusal>
        ensures answer { result ≡ refused_unless (good_state self.old state filled) WatcherRefusal.BadState }
        ensures number { number_answered number_of result ≡ (if good_state self.old state filled then 0 else 24) }
        ensures after { self.new ≡ (if good_state self.old state filled then with_state self.old state filled else self.old) }
    {
        let count = self.count();
        if state >= count || filled.label > HIGHEST_LABEL || !stay_below(count, &filled.next) {
            return Err(WatcherRefusal::BadState);
        }
        self.table[usize::from(state)] = filled;
        Ok(())
    }

    // How many states count, 1 to 16.
    pub fn count(&self) -> u8
        ensures { result ≡ states_of self.now }
    {
        self.states.clamp(1, MOST_STATES)
    }

    // The state's label, 0 to 15; 0 where there is no such state.
    pub fn label(&self, state: u8) -> u8
        ensures { result ≡ watch_label self.now state }
    {
        if state < self.count() {
            self.table[usize::from(state)].label.min(HIGHEST_LABEL)
        } else {
            0
        }
    }

    // The state after `state` under the label; 0 where there is no such state or label.
    pub fn next(&self, state: u8, label: u8) -> u8
        ensures { result ≡ watch_next self.now state label }
    {
        let count = self.count();
        if state < count && label <= HIGHEST_LABEL {
            let filled = self.table[usize::from(state)];
            filled.next[usize::from(label)].min(count - 1)
        } else {
            0
        }
    }
}
