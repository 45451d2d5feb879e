// Runs: a setting and an array of disks, and the calls given to them.
#![tactic(auto)]

mod performing;
mod reading;
mod run;
mod turns;

pub use faults::{Numbered, RunFault};
pub use performing::{Performance, run_calls};
pub use reading::run_is_counted;
pub use run::Run;
pub use tallies::{Order, Progress, Reply};
