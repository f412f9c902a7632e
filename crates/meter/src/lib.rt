// Meters: what one means and its laws, and the meters that count returns and deadlines.
#![tactic(auto)]

mod actions;
mod counters;
mod deadline_meter;
mod marks;
mod meter;
mod reading;
mod refusals;
mod return_meter;
mod seen;

pub use actions::Action;
pub use board::Refusal;
pub use deadline_meter::DeadlineMeter;
pub use marks::{MEMORY, NONE, OVERFLOW};
pub use meter::Meter;
pub use reading::{COUNTERS, Counters, DeadlineReading, Reading, ReturnReading};
pub use refusals::ActionRefusal;
pub use return_meter::ReturnMeter;
pub use seen::Seen;
