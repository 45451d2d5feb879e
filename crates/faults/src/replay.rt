// Why a replay stops.
ghost use Rattle.std.specs.Prelude.{◌≡◌};
ghost use Rattle.faults.specs.declared.replay.ReplayFault.TheVariants.{Run as of_run};

use crate::run::RunFault;

// What the run said to an order or a unit, and the place of the unit's map byte. (`ScheduleFault` says why they are two.)
#[derive(Clone, Copy, PartialEq, Eq, Debug)]
pub struct Refused {
    pub place: usize,
    pub fault: RunFault,
}

// Places are counted from the schedule's first byte, which is 0.
#[derive(Clone, Copy, PartialEq, Eq, Debug)]
pub enum ReplayFault {
    // the bytes end here, too soon
    Short { place: usize },
    // a bit of the map byte here is not allowed
    Bit { place: usize },
    // the run is finished, and this is the first byte too many
    LeftOver { place: usize },
    // the run refused an order or a unit
    Run(Refused),
}

// By hand: a clause names the case that `?` makes, and of a derived one nothing is known.
impl From<Refused> for ReplayFault {
    ghost from_gives = { λ e r. r ≡ of_run e };

    fn from(refused: Refused) -> ReplayFault {
        ReplayFault::Run(refused)
    }
}
