// Schedules: bytes that say which orders and units to give to a run.
#![tactic(auto)]

mod log;
mod reading;
mod replaying;

pub use faults::{Numbered, Refused, ReplayFault};
pub use replaying::{Replayed, replay};
pub use schedules::UnitRecord;
pub use tallies::Order;
