// A bank: an array of up to four disks, kept in one table.
ghost use Rattle.std.specs.Prelude.{◌≡◌, ℕ, ◌+◌, ◌<◌, ◌≤◌, false, length, is_some, OnOk, OnErr, slice_index};
ghost use Rattle.std.proofs.Common.{◌∙◌, rules};
ghost use Rattle.arrays.specs.Disks.{holds, idle};
ghost use Rattle.arrays.specs.Filling.{try_bank, greatest};
ghost use Rattle.arrays.specs.Layouts.{all_first};
ghost use Rattle.arrays.specs.Records.{left_of};
ghost use Rattle.arrays.specs.Fetchings.{fetching_each};
ghost use Rattle.arrays.specs.Tables.{contents};
ghost use Rattle.std.proofs.lemmas.List.{length-map};
ghost use Rattle.arrays.specs.declared.disk.Disk.{Disk};

use crate::array::{Array, Placement};
use crate::fetch::Fetch;
use crate::filling::{greatest, try_homes};
use crate::table::Table;
use crate::time::FetchTime;
use faults::{ArrayFault, BankFault};

#[derive(Drop)]
pub struct Bank {
    time: FetchTime,
    // how many of the four records are disks: a table of four is asked for here, and no Vec
    count: u8,
    homes: [u8; 64],
    table: Table,
    ghost some: { 1 ≤ count },
    ghost few: { count ≤ 4 },
    ghost all: { length homes ≡ 64 },
    ghost housed: { (b : ℕ) → slice_index homes b < count },
    ghost within: { (d : ℕ) → left_of (holds (contents table.disks) d) ≤ time.units },
    ghost beyond: { (d : ℕ) → count ≤ d → is_some (holds (contents table.disks) d) ≡ false },
}

impl Bank {
    // One idle disk, where every block lives, with fetch time 1.
    pub fn new() -> Bank
        ensures time { result.time.units ≡ 1 }
        ensures count { result.count ≡ 1 }
        ensures homes { result.homes ≡ all_first }
        ensures idle { contents result.table.disks ≡ idle }
    {
        Bank {
            time: FetchTime { units: 1 },
            count: 1,
            homes: [0; 64],
            table: Table::new(),
        }
    }

    // Sets the fetch time and the homes and leaves every disk idle, or refuses and changes nothing. There are as many
    // disks as the homes need.
    pub fn fill(&mut self, time: u8, homes: &[u8; 64]) -> Result<(), BankFault>
        ensures answers { result ≡ try_bank time homes.now }
        ensures time { OnOk result (self.new.time.units ≡ time) }
        ensures homes { OnOk result (self.new.homes ≡ homes.now) }
        ensures count { OnOk result (self.new.count ≡ greatest homes.now + 1) }
        ensures idle { OnOk result (contents self.new.table.disks ≡ idle) }
        ensures refused { OnErr result (self.new ≡ self.old) }
    {
        let time = FetchTime::new(time)?;
        try_homes(homes)?;
        let count = greatest(homes) + 1;
        *self = Bank {
            time,
            count,
            homes: *homes,
            table: Table::new(),
        };
        Ok(())
    }
}

impl Placement for Bank {
    ghost layout = { λ x. record { disks = x.count; homes = x.homes } };

    ghost housed = { Prim.search rules };

    fn disks(&self) -> u8 {
        self.count
    }

    fn home(&self, block: u8) -> u8 {
        self.homes.get(block as usize).copied().unwrap_or(0)
    }
}

impl Array for Bank {
    ghost time = { λ x. x.time.units };

    ghost held = { λ x. contents x.table.disks };

    ghost working = { λ x.
        record {
          lasting = x.time.lasting;
          brief = x.time.brief;
          four = length-map x.table.disks (λ (d : Disk). d.fetch) ∙ x.table.four;
          fetching = fetching_each x.time.units x.table.disks x.within;
          beyond = Prim.search rules;
        } };

    fn fetch_time(&self) -> u8 {
        self.time.units
    }

    fn begin(&mut self, block: u8) -> Result<(), ArrayFault> {
        let disk = self.home(block);
        self.table.begin(disk, block, self.time)
    }

    fn step(&mut self) -> u64 {
        self.table.step()
    }

    fn look(&self, disk: u8) -> Option<Fetch> {
        self.table.look(disk)
    }
}
