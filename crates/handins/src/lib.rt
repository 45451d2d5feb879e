// Hand-ins: the bytes that a group hands in, and the report on them.
#![tactic(auto)]

mod counting;
mod cut;
mod marking;
mod parts;
mod printing;
mod report;

pub use faults::{HandInFault, Numbered, Part, ScheduleFault};
pub use marking::mark_hand_in;
pub use report::{Counts, Report};
