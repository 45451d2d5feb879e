// What is told of a hand-in.
use faults::HandInFault;
use schedules::UnitRecord;

// The counts of a run; all are 0 where no run was made, which an Option would say no plainer: a refusal prints no counts.
#[derive(Clone, Copy, PartialEq, Eq, Debug, Default)]
pub struct Counts {
    pub cursor: u8,
    pub elapsed: u16,
    pub stall: u16,
    pub orders: u32,
}

// The units that ran, the run's counts as they stand, and how the marking ended.
#[derive(Drop)]
pub struct Report {
    pub units: Vec<UnitRecord>,
    pub counts: Counts,
    pub ending: Result<(), HandInFault>,
}
