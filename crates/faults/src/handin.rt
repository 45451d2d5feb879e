// Why a hand-in is refused.
ghost use Rattle.std.specs.Prelude.{◌≡◌};
ghost use Rattle.faults.specs.declared.handin.HandInFault.TheVariants.{Setting as in_setting, Array as in_array, Schedule as in_schedule};

use crate::array::FillFault;
use crate::replay::ReplayFault;
use crate::setting::SettingFault;

// The parts of a hand-in, with their numbers.
#[derive(Clone, Copy, PartialEq, Eq, Debug)]
pub enum Part {
    Setting = 1,
    Schedule = 2,
    Page = 3,
}

// What the replay said, and the place in the hand-in where the schedule starts. Not one generic type with `Refused`, which
// would be no plainer: it would call where a fault is and where to count from by one name.
#[derive(Clone, Copy, PartialEq, Eq, Debug)]
pub struct ScheduleFault {
    pub start: usize,
    pub fault: ReplayFault,
}

// Places are counted from the hand-in's first byte, which is 0.
#[derive(Clone, Copy, PartialEq, Eq, Debug)]
pub enum HandInFault {
    // more bytes than a hand-in may have
    TooLong,
    // the bytes end here, within a part
    Short { part: Part, place: usize },
    // a bit of the map byte is not allowed
    MapByte,
    // the setting cannot be filled
    Setting(SettingFault),
    // the array cannot be filled
    Array(FillFault),
    // the replay of the schedule stopped
    Schedule(ScheduleFault),
    // the first byte behind the last field
    LeftOver { place: usize },
}

// By hand, as all of these: a clause names the case that `?` makes, and of a derived one nothing is known.
impl From<SettingFault> for HandInFault {
    ghost from_gives = { λ e r. r ≡ in_setting e };

    fn from(fault: SettingFault) -> HandInFault {
        HandInFault::Setting(fault)
    }
}

impl From<FillFault> for HandInFault {
    ghost from_gives = { λ e r. r ≡ in_array e };

    fn from(fault: FillFault) -> HandInFault {
        HandInFault::Array(fault)
    }
}

impl From<ScheduleFault> for HandInFault {
    ghost from_gives = { λ e r. r ≡ in_schedule e };

    fn from(fault: ScheduleFault) -> HandInFault {
        HandInFault::Schedule(fault)
    }
}
