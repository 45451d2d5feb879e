// Schedules: bytes that say which orders and units to give to a run, and what they come to by the rules alone.
#![tactic(auto)]

ghost use Rattle.schedules.specs.Spelling.{ReplaysFaithful};

mod printing;
mod record;

pub use record::UnitRecord;
pub use tallies::Order;

// Does nothing at run time: its contract is that the replay of every schedule gives the calls that its bytes spell.
#[tactic(auto, using(crate::proofs::Spellings::faithful))]
pub fn replays_are_faithful()
    ensures { ReplaysFaithful }
{}
