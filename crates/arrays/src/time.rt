// How long a fetch takes.
ghost use Rattle.std.specs.Prelude.{◌≡◌, ◌≤◌, IfOk};
ghost use Rattle.faults.specs.Faults.{fill_fault};
ghost use Rattle.faults.specs.Outcomes.{answered};
ghost use Rattle.arrays.specs.Disks.{try_time};

use faults::FillFault;

const MOST_TIME: u8 = 64;

// A fetch time, 1 to 64 units.
#[derive(Clone, Copy)]
pub(crate) struct FetchTime {
    pub(crate) units: u8,
    ghost lasting: { 1 ≤ units },
    ghost brief: { units ≤ 64 },
}

impl FetchTime {
    // A fetch time of so many units, unless a fetch may not take these.
    pub(crate) fn new(units: u8) -> Result<FetchTime, FillFault>
        ensures answers { answered fill_fault result ≡ try_time units }
        ensures time { IfOk result (λ t. t.units ≡ units) }
    {
        if (1..=MOST_TIME).contains(&units) {
            Ok(FetchTime { units })
        } else {
            Err(FillFault::Time)
        }
    }
}
