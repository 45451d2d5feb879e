// The table of four disks that a bank keeps.
ghost use Rattle.std.specs.Prelude.{◌≡◌, ◌<◌, length, slice_set, Some, OnOk, OnErr};
ghost use Rattle.faults.specs.Faults.{array_fault};
ghost use Rattle.faults.specs.Outcomes.{answered};
ghost use Rattle.arrays.specs.Disks.{disk_outcome, holds, idle, step_disks, arrivals};
ghost use Rattle.arrays.specs.Tables.{contents};

use crate::disk::Disk;
use crate::fetch::Fetch;
use crate::time::FetchTime;
use faults::ArrayFault;

#[derive(Clone, Copy)]
pub(crate) struct Table {
    disks: [Disk; 4],
    ghost four: { length disks ≡ 4 },
}

impl Table {
    // Four idle disks.
    pub(crate) fn new() -> Table
        ensures { contents result.disks ≡ idle }
    {
        Table {
            disks: [Disk { fetch: None }; 4],
        }
    }

    // Begins a fetch of a block on one of the disks, in its place. (A disk is a number, as in the traits; here it is a place.)
    pub(crate) fn begin(&mut self, disk: u8, block: u8, time: FetchTime) -> Result<(), ArrayFault>
        requires { disk < 4 }
        ensures answers { answered array_fault result ≡ disk_outcome disk block (holds (contents self.old.disks) disk) }
        ensures begun { OnOk result (contents self.new.disks ≡ slice_set (contents self.old.disks) disk (Some (record { block = block; left = time.units }))) }
        ensures refused { OnErr result (contents self.new.disks ≡ contents self.old.disks) }
    {
        // the home disk's record is changed in its place, as is asked for here; `self.disks[..].begin(..)` in one step, a record lent
        // from an array in a struct with ghost fields, gets no proof yet
        let disks = &mut self.disks;
        disks[disk as usize].begin(disk, block, time)
    }

    // One unit of time for every disk; answers the map of the blocks that they deliver.
    pub(crate) fn step(&mut self) -> u64
        ensures answers { result ≡ arrivals (contents self.old.disks) }
        ensures disks { contents self.new.disks ≡ step_disks (contents self.old.disks) }
    {
        let mut arrived = 0;
        // a `for`, since a `fold` over `iter_mut` says nothing yet of how it leaves the disks
        for disk in self.disks.iter_mut() {
            arrived |= disk.tick();
        }
        arrived
    }

    // What a disk has under way; one beyond the table has nothing.
    pub(crate) fn look(&self, disk: u8) -> Option<Fetch>
        ensures { result ≡ holds (contents self.now.disks) disk }
    {
        self.disks.get(disk as usize).and_then(|disk| disk.fetch)
    }
}
