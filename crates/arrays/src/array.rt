// What a placement and an array are, whoever writes them.
ghost use Rattle.std.specs.Prelude.{◌≡◌, ℕ, ◌<◌, ◌≤◌};
ghost use Rattle.faults.specs.Faults.{array_fault};
ghost use Rattle.faults.specs.Outcomes.{answered};
ghost use Rattle.arrays.specs.Disks.{Disks, Working, holds, begin_outcome, begin_disks, step_disks, arrivals};
ghost use Rattle.arrays.specs.Layouts.{Layout, Housed, home};

use crate::fetch::Fetch;
use faults::ArrayFault;

// A placement: 1 to 4 disks, and the home disk of each block number 0 to 63.
pub trait Placement {
    ghost layout: { Self → Layout };

    // The number of disks.
    fn disks(&self) -> u8
        ensures value { result ≡ (layout self.now).disks }
        ensures some { 1 ≤ result }
        ensures few { result ≤ 4 };

    // The disk where a block lives; for a number above 63 it is 0.
    fn home(&self, block: u8) -> u8
        ensures value { result ≡ home (layout self.now) block }
        ensures within { result < (layout self.now).disks };

    ghost housed: { (x : Self) → Housed (layout x) };
}

// An array: a placement with a fetch time of 1 to 64 units, and for each disk the fetch that it has under way, or none.
pub trait Array: Placement {
    ghost time: { Self → ℕ };

    ghost held: { Self → Disks };

    // How many units a fetch takes.
    fn fetch_time(&self) -> u8
        ensures value { result ≡ time self.now }
        ensures some { 1 ≤ result }
        ensures few { result ≤ 64 };

    // Begins a fetch of a block on its home disk.
    fn begin(&mut self, block: u8) -> Result<(), ArrayFault>
        ensures answers { answered array_fault result ≡ begin_outcome (Self.Placement.layout self.old) (held self.old) block }
        ensures disks { held self.new ≡ begin_disks (Self.Placement.layout self.old) (time self.old) (held self.old) block }
        ensures layout { Self.Placement.layout self.new ≡ Self.Placement.layout self.old }
        ensures time { time self.new ≡ time self.old };

    // One unit of time for every disk; answers the map of the blocks that arrive.
    fn step(&mut self) -> u64
        ensures answers { result ≡ arrivals (held self.old) }
        ensures disks { held self.new ≡ step_disks (held self.old) }
        ensures layout { Self.Placement.layout self.new ≡ Self.Placement.layout self.old }
        ensures time { time self.new ≡ time self.old };

    // The fetch that a disk has under way; a disk that there is not has none.
    fn look(&self, disk: u8) -> Option<Fetch>
        ensures { result ≡ holds (held self.now) disk };

    ghost working: { (x : Self) → Working (Self.Placement.layout x).disks (time x) (held x) };
}
