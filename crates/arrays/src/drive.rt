// A drive: an array of one disk. Not a bank with one disk, which would be no plainer: a drive has no homes to keep or to refuse.
ghost use Rattle.std.specs.Prelude.{◌≡◌, ◌≤◌, None, OnOk, OnErr};
ghost use Rattle.faults.specs.Faults.{fill_fault};
ghost use Rattle.faults.specs.Outcomes.{answered};
ghost use Rattle.arrays.specs.Disks.{try_time, alone};
ghost use Rattle.arrays.specs.Layouts.{one_disk};
ghost use Rattle.arrays.specs.Records.{left_of};
ghost use Rattle.arrays.specs.Homes.{one_housed};
ghost use Rattle.std.proofs.Common.{rules};

use crate::array::{Array, Placement};
use crate::disk::Disk;
use crate::fetch::Fetch;
use crate::time::FetchTime;
use faults::{ArrayFault, FillFault};

const ONLY_DISK: u8 = 0;

#[derive(Drop)]
pub struct Drive {
    time: FetchTime,
    disk: Disk,
    ghost within: { left_of disk.fetch ≤ time.units },
}

impl Drive {
    // An idle drive with fetch time 1.
    pub fn new() -> Drive
        ensures time { result.time.units ≡ 1 }
        ensures idle { result.disk.fetch ≡ None }
    {
        Drive {
            time: FetchTime { units: 1 },
            disk: Disk { fetch: None },
        }
    }

    // Sets the fetch time and leaves the disk idle, or refuses and changes nothing.
    pub fn fill(&mut self, time: u8) -> Result<(), FillFault>
        ensures answers { answered fill_fault result ≡ try_time time }
        ensures time { OnOk result (self.new.time.units ≡ time) }
        ensures idle { OnOk result (self.new.disk.fetch ≡ None) }
        ensures refused { OnErr result (self.new ≡ self.old) }
    {
        let time = FetchTime::new(time)?;
        *self = Drive {
            time,
            disk: Disk { fetch: None },
        };
        Ok(())
    }
}

impl Placement for Drive {
    ghost layout = { λ _. one_disk };

    ghost housed = { λ x. one_housed };

    fn disks(&self) -> u8 {
        1
    }

    #[tactic(auto, using(crate::specs::Homes::first_home))]
    fn home(&self, _block: u8) -> u8 {
        ONLY_DISK
    }
}

impl Array for Drive {
    ghost time = { λ x. x.time.units };

    ghost held = { λ x. alone x.disk.fetch };

    ghost working = { Prim.search rules };

    fn fetch_time(&self) -> u8 {
        self.time.units
    }

    #[tactic(auto, using(crate::specs::Homes::first_home))]
    fn begin(&mut self, block: u8) -> Result<(), ArrayFault> {
        self.disk.begin(ONLY_DISK, block, self.time)
    }

    fn step(&mut self) -> u64 {
        self.disk.tick()
    }

    fn look(&self, disk: u8) -> Option<Fetch> {
        if disk == ONLY_DISK {
            self.disk.fetch
        } else {
            None
        }
    }
}
