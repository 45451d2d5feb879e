// The record of one disk, which every array of ours keeps for each of its disks.
ghost use Rattle.std.specs.Prelude.{◌≡◌, ◌<◌, ◌≤◌, Some, None, OnOk, OnErr};
ghost use Rattle.faults.specs.Faults.{array_fault};
ghost use Rattle.faults.specs.Outcomes.{answered};
ghost use Rattle.arrays.specs.Disks.{disk_outcome, step_disk, delivered};
ghost use Rattle.arrays.specs.Records.{block_of, left_of};

use crate::fetch::Fetch;
use crate::time::FetchTime;
use faults::ArrayFault;

const MOST_BLOCK: u8 = 63;

// A disk is idle, or has a fetch under way, of a block that there is and with a unit left at least.
#[derive(Clone, Copy)]
pub(crate) struct Disk {
    pub(crate) fetch: Option<Fetch>,
    ghost known: { block_of fetch < 64 },
    ghost under: { 1 ≤ left_of fetch },
}

impl Disk {
    // Begins a fetch of a block on this disk, which has this number in its array; a block above 63 is refused, and a
    // busy disk, and then nothing changes.
    pub(crate) fn begin(&mut self, disk: u8, block: u8, time: FetchTime) -> Result<(), ArrayFault>
        ensures answers { answered array_fault result ≡ disk_outcome disk block self.old.fetch }
        ensures begun { OnOk result (self.new.fetch ≡ Some (record { block = block; left = time.units })) }
        ensures refused { OnErr result (self.new.fetch ≡ self.old.fetch) }
    {
        if block > MOST_BLOCK {
            return Err(ArrayFault::NoSuchBlock { block });
        }
        if let Some(Fetch { block, .. }) = self.fetch {
            return Err(ArrayFault::DiskBusy { disk, block });
        }
        self.fetch = Some(Fetch {
            block,
            left: time.units,
        });
        Ok(())
    }

    // One unit of time for the disk; answers the map of the block that it delivers.
    pub(crate) fn tick(&mut self) -> u64
        ensures answers { result ≡ delivered self.old.fetch }
        ensures disk { self.new.fetch ≡ step_disk self.old.fetch }
    {
        let Some(fetch) = self.fetch else {
            return 0;
        };
        if fetch.left == 1 {
            self.fetch = None;
            1 << fetch.block
        } else {
            self.fetch = Some(Fetch {
                block: fetch.block,
                left: fetch.left - 1,
            });
            0
        }
    }
}
