// Watchers, and the board that any board is under one.
#![tactic(auto)]

mod refusals;
mod watched;
mod watcher;

pub use board::Refusal;
pub use refusals::WatcherRefusal;
pub use watched::Watched;
pub use watcher::{MOST_STATES, Watcher, WatcherState};
