// A whole schedule, given to a run. That the run's instance stays is said here too, as the run says it.
ghost use Rattle.std.specs.Prelude.{◌≡◌, suc, length, IfOk, OnErr};
ghost use Rattle.runs.specs.Standing.{Joined};
ghost use Rattle.schedules.specs.Replay.{replay_units, replayed, way_of};
ghost use Rattle.schedules.specs.Spelling.{Faithful};
ghost use Rattle.replays.specs.Turns.{done};

use crate::log::Replay;
use arrays::Array;
use faults::ReplayFault;
use runs::Run;
use schedules::UnitRecord;
use std::alloc::{AllocError, Global};
use tallies::Call;

// What a replay did, and how it ended.
#[derive(Drop)]
pub struct Replayed {
    pub calls: Vec<Call>,
    pub units: Vec<UnitRecord>,
    pub ending: Result<(), ReplayFault>,
}

impl Replay<'_> {
    // Units until the run is finished; then no byte may be left.
    #[tactic(auto, using(crate::proofs::Turning::units_gave, crate::proofs::Turning::units_stopped))]
    fn replay_units<A: Array>(&mut self, run: &mut Run<A>) -> Result<(), ReplayFault>
        requires { self.old.place ≡ 0 }
        ensures follows { replay_units run.old.instance self.old.bytes.now (suc (length self.old.bytes.now)) 0 (done run.old self.old) ≡ way_of result (done run.new self.new) }
        ensures instance { run.new.instance ≡ run.old.instance }
    {
        while !run.is_finished() {
            self.replay_unit(run)?;
        }
        if self.place < self.bytes.len() {
            return Err(ReplayFault::LeftOver { place: self.place });
        }
        Ok(())
    }
}

// Gives a schedule's orders and units to a run, until it is finished or the first fault. What was done before a fault
// stays. Where memory is short, nothing is done. (The heap, where memory comes from, is asked first; it and the bytes are no one
// thing.)
#[tactic(auto, using(schedules::proofs::Spellings::faithful))]
pub fn replay<A: Array>(
    heap: Global,
    run: &mut Run<A>,
    bytes: &[u8],
) -> Result<Replayed, AllocError>
    ensures replayed { IfOk result (λ x. replayed run.old.instance run.old.state bytes.now ≡ way_of x.ending (record { state = run.new.state; calls = x.calls.items; units = x.units.items })) }
    ensures faithful { Faithful run.old.instance run.old.state bytes.now (replayed run.old.instance run.old.state bytes.now) }
    ensures instance { run.new.instance ≡ run.old.instance }
    ensures was_joined { Joined A.Placement A.Array.own run.old }
    ensures joined { Joined A.Placement A.Array.own run.new }
    ensures untouched { OnErr result (run.new.state ≡ run.old.state) }
{
    // lent, the array is known to be the run's, here and below; as every array it has at most four disks, and there are four
    // places for orders in a unit's record
    let _ = run.array();
    let mut replay = Replay {
        bytes,
        start: 0,
        place: 0,
        orders: [None; 4],
        calls: Vec::with_capacity(heap, bytes.len())?,
        units: Vec::with_capacity(heap, bytes.len())?,
    };
    let ending = replay.replay_units(run);
    let _ = run.array();
    let Replay { calls, units, .. } = replay;
    Ok(Replayed {
        calls,
        units,
        ending,
    })
}
