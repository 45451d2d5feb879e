// One unit of a schedule, read and given to a run. That the run's instance stays, and the bytes, and that a unit is being read,
// is said function by function, in a line: a type that carried it would be named, or lent, in each of them.
ghost use Rattle.std.specs.Prelude.{◌≡◌, ◌<◌, false, OnOk};
ghost use Rattle.tallies.specs.Tally.{answer};
ghost use Rattle.tallies.specs.declared.call.Call.TheVariants.{Unit as unit_call};
ghost use Rattle.schedules.specs.Replay.{ends, barred, called, closed, give_order, give_orders, replay_unit};
ghost use Rattle.replays.specs.Turns.{Orders, SameUnit, by_run, done, read};

use crate::log::Replay;
use arrays::{Array, Placement};
use faults::{Refused, ReplayFault};
use maps::has;
use runs::Run;
use schedules::UnitRecord;
use tallies::{Call, Order};

// Whether a disk's bit is not allowed, where it is to fetch this block. (A disk is a number, as in the traits of arrays; that it
// is below four is said where it is used as a place.)
fn is_barred<A: Array>(run: &Run<A>, disk: u8, fetch: u8) -> bool
    ensures answers { result ≡ barred run.now.instance disk fetch }
    ensures low { result ≡ false → disk < 4 }
{
    disk >= run.array().disks() || fetch < run.setting().blocks() && run.array().home(fetch) != disk
}

impl Replay<'_> {
    // The order of a disk whose bit stands in the map byte: its two bytes are read, then the bit is tried.
    fn order_of<A: Array>(&self, run: &Run<A>, disk: u8) -> Result<Order, ReplayFault>
        ensures read { Orders run.now.instance self.now.bytes.now self.now.start disk (read self.now) result }
        ensures low { OnOk result (disk < 4) }
    {
        // the bytes stay whole, since faults are told by their place in them
        let [fetch, evict, ..] = &self.bytes[self.place..] else {
            return Err(ReplayFault::Short {
                place: self.bytes.len(),
            });
        };
        if is_barred(run, disk, *fetch) {
            return Err(ReplayFault::Bit { place: self.start });
        }
        Ok(Order {
            fetch: *fetch,
            evict: *evict,
        })
    }

    // Reads the order of a disk and gives it. It is noted as a call whether the run refuses it or not.
    fn give_order<A: Array>(&mut self, run: &mut Run<A>, disk: u8) -> Result<(), ReplayFault>
        requires { self.old.start < self.old.place }
        ensures follows { give_order run.old.instance self.old.bytes.now self.old.start disk (read self.old) (done run.old self.old) ≡ ends (read self.new) result (done run.new self.new) }
        ensures instance { run.new.instance ≡ run.old.instance }
        ensures unit { SameUnit self.old self.new }
    {
        let place = self.start;
        let order = self.order_of(run, disk)?;
        self.place += 2;
        self.calls.push_reserved(Call::Order(order));
        run.order(order).map_err(|fault| Refused { place, fault })?;
        // each order in the place of its disk
        self.orders[disk as usize] = Some(order);
        Ok(())
    }

    // Reads and gives the orders of all disks whose bits stand in the map byte, lowest first.
    #[tactic(auto, using(crate::proofs::Giving::orders_gave, crate::proofs::Giving::orders_skipped, crate::proofs::Giving::orders_stopped, crate::proofs::Giving::orders_over))]
    fn give_orders<A: Array>(&mut self, run: &mut Run<A>, map: u8) -> Result<(), ReplayFault>
        requires { self.old.start < self.old.place }
        ensures follows { give_orders run.old.instance self.old.bytes.now 8 map self.old.start 0 (read self.old) (done run.old self.old) ≡ ends (read self.new) result (done run.new self.new) }
        ensures instance { run.new.instance ≡ run.old.instance }
        ensures unit { SameUnit self.old self.new }
    {
        // tried as a `filter` with `try_for_each`: what its closure leaves of the run is not known then
        for disk in 0..8 {
            if has(u64::from(map), disk) {
                self.give_order(run, disk)?;
            }
        }
        Ok(())
    }

    // Lets the unit go by, and keeps a record of it. It is noted as a call whether the run refuses it or not, and no unit is
    // being read any more.
    fn give_unit<A: Array>(&mut self, run: &mut Run<A>) -> Result<(), Refused>
        requires { self.old.start < self.old.place }
        ensures follows { closed self.old.start (read self.old) (answer run.old.instance run.old.state unit_call) (called run.old.instance unit_call (done run.old self.old)) ≡ ends self.new.place (by_run result) (done run.new self.new) }
        ensures instance { run.new.instance ≡ run.old.instance }
        ensures bytes { self.new.bytes.now ≡ self.old.bytes.now }
        ensures place { self.new.place ≡ self.old.place }
    {
        let place = self.start;
        self.start = self.place;
        self.calls.push_reserved(Call::Unit);
        let progress = run.unit().map_err(|fault| Refused { place, fault })?;
        self.units.push_reserved(UnitRecord {
            number: run.elapsed(),
            progress,
            orders: self.orders,
        });
        Ok(())
    }

    // Reads a whole unit, whose map byte is the next to read, and gives it.
    pub(crate) fn replay_unit<A: Array>(&mut self, run: &mut Run<A>) -> Result<(), ReplayFault>
        ensures follows { replay_unit run.old.instance self.old.bytes.now self.old.place (done run.old self.old) ≡ ends self.new.place result (done run.new self.new) }
        ensures instance { run.new.instance ≡ run.old.instance }
        ensures bytes { self.new.bytes.now ≡ self.old.bytes.now }
        ensures onward { OnOk result (self.old.place < self.new.place) }
    {
        let Some(map) = self.bytes.get(self.place).copied() else {
            return Err(ReplayFault::Short { place: self.place });
        };
        self.start = self.place;
        self.place += 1;
        self.orders = [None; 4];
        self.give_orders(run, map)?;
        self.give_unit(run)?;
        Ok(())
    }
}
