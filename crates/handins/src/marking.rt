// A hand-in marked, from its bytes to the report.
ghost use Rattle.std.specs.Prelude.{◌≡◌, length, IfOk, None, Ok};
ghost use Rattle.settings.specs.Contents.{content, wanted};
ghost use Rattle.settings.specs.Filling.{try_figures, try_content};
ghost use Rattle.arrays.specs.Disks.{try_time};
ghost use Rattle.instances.specs.Instances.{instance_of};
ghost use Rattle.tallies.specs.Tally.{beginning};
ghost use Rattle.schedules.specs.Replay.{replayed};
ghost use Rattle.handins.specs.Tests.{and_then, filled, passes, tried};
ghost use Rattle.handins.specs.Marking.{Truly, after_replay, marked, reported};
ghost use Rattle.handins.specs.Fields.{try_parts};
ghost use Rattle.handins.specs.Reading.{Prepared, ending_by};

use crate::cut::{PartOne, Schedule};
use crate::parts::{Reader, try_front};
use crate::report::{Counts, Report};
use arrays::{Array, Drive};
use faults::{HandInFault, ReplayFault, ScheduleFault};
use replays::{Replayed, replay};
use runs::Run;
use settings::Setting;
use std::alloc::{AllocError, Global};

// A setting, an array, and the schedule that a run of them is to be given.
#[derive(Drop)]
struct Ready<'a, A> {
    setting: Setting,
    array: A,
    schedule: Schedule<'a>,
}

// Fills the setting and a drive: figures first, then the initial map and the requests.
fn fill(part: &PartOne, mut setting: Setting) -> Result<(Setting, Drive), HandInFault>
    ensures tried { tried result ≡ and_then (filled (try_figures part.now.contents.blocks part.now.contents.size (length part.now.contents.requests.now))) (and_then (filled (try_time part.now.time)) (filled (try_content (wanted part.now.contents)))) }
    ensures setting { IfOk result (λ r. content r.0 ≡ wanted part.now.contents) }
    ensures time { IfOk result (λ r. r.1.time.units ≡ part.now.time) }
    ensures idle { IfOk result (λ r. r.1.disk.fetch ≡ None) }
{
    let new = &part.contents;
    let mut drive = Drive::new();
    Setting::try_figures(new.blocks, new.size, new.requests.len())?;
    drive.fill(part.time)?;
    setting.fill(new)?;
    Ok((setting, drive))
}

// All that comes before the replay: part 1 is read whole and fills the setting and the array; then the schedule is cut out.
fn prepare(setting: Setting, bytes: &[u8]) -> Result<Ready<'_, Drive>, HandInFault>
    ensures tried { tried result ≡ try_parts bytes.now }
    ensures ready { IfOk result (λ r. Prepared bytes.now r.setting r.array r.schedule) }
{
    try_front(bytes)?;
    let mut reader = Reader { bytes, place: 0 };
    let part = reader.part_one()?;
    let (setting, array) = fill(&part, setting)?;
    let schedule = reader.schedule()?;
    Ok(Ready {
        setting,
        array,
        schedule,
    })
}

// How the marking ends: the replay's fault, then the bytes behind the schedule.
fn ending_of(replayed: Result<(), ReplayFault>, schedule: &Schedule) -> Result<(), HandInFault>
    ensures { tried result ≡ ending_by replayed schedule.now }
{
    let start = schedule.start;
    replayed.map_err(|fault| ScheduleFault { start, fault })?;
    if schedule.rest.is_empty() {
        Ok(())
    } else {
        Err(HandInFault::LeftOver {
            place: start + schedule.bytes.len(),
        })
    }
}

// Replays the schedule on a run of the setting above the array.
fn mark_schedule<A: Array + Drop>(heap: Global, ready: Ready<A>) -> Result<Report, AllocError>
    ensures { IfOk result (λ x. reported x ≡ after_replay ready.entry.schedule.start (ending_by (Ok tt) ready.entry.schedule) (replayed (instance_of A.Placement A.Array.own ready.entry.setting ready.entry.array) (beginning (instance_of A.Placement A.Array.own ready.entry.setting ready.entry.array) (A.Array.held ready.entry.array)) ready.entry.schedule.bytes.now)) }
{
    let mut run = Run::new(ready.setting, ready.array);
    let Replayed { units, ending, .. } = replay(heap, &mut run, ready.schedule.bytes)?;
    Ok(Report {
        units,
        counts: Counts::from(&run),
        ending: ending_of(ending, &ready.schedule),
    })
}

// Marks a hand-in: tries its parts, replays its schedule, and reports. A refusal is a report too. (The heap, where memory comes
// from, is asked first wherever memory is; it and the bytes are no one thing.)
#[tactic(auto, using(crate::proofs::Truth::truly, crate::proofs::Endings::ready_way))]
pub fn mark_hand_in(heap: Global, bytes: &[u8]) -> Result<Report, AllocError>
    ensures report { IfOk result (λ x. reported x ≡ marked bytes.now) }
    ensures truly { try_parts bytes.now ≡ passes → Truly bytes.now }
{
    match prepare(Setting::new(heap)?, bytes) {
        Ok(ready) => mark_schedule(heap, ready),
        Err(fault) => Ok(Report {
            units: Vec::new(heap),
            counts: Counts::default(),
            ending: Err(fault),
        }),
    }
}
