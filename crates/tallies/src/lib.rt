// The calls that a run is given, and their tally: what they come to by the rules alone.
#![tactic(auto)]

ghost use Rattle.tallies.specs.Laws.{TalliesLawful};

mod call;
mod printing;
mod reply;

pub use call::{Call, Order};
pub use reply::{Progress, Reply};

// Does nothing at run time: its contract is that the tally of every list of calls keeps the laws of a run.
#[tactic(auto, using(crate::proofs::Lawfulness::tallies_lawful))]
pub fn tallies_are_lawful()
    ensures { TalliesLawful }
{}
