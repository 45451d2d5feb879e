// Runs made, and the calls that change them: order and unit. That the instance stays is said call by call, as the array says
// call by call that its layout and its fetch time do.
ghost use Rattle.std.specs.Prelude.{◌≡◌, ◌<◌, IfOk};
ghost use Rattle.instances.specs.Instances.{asked, last, instance_of};
ghost use Rattle.tallies.specs.Tally.{admit, any_busy, beginning, finished, ready, told, answer, next};
ghost use Rattle.tallies.specs.declared.call.Call.TheVariants.{Order as order_call, Unit as unit_call};
ghost use Rattle.tallies.specs.Replies.{unit_told};
ghost use Rattle.runs.specs.Standing.{Joined};
ghost use Rattle.faults.specs.Faults.{run_fault};
ghost use Rattle.faults.specs.Outcomes.{answered};

use crate::run::Run;
use arrays::Array;
use faults::RunFault;
use maps::{has, without};
use settings::Setting;
use tallies::{Order, Progress};

// Whether a fetch is under way.
fn is_busy<A: Array>(array: &A) -> bool
    ensures { result ≡ any_busy (A.Array.held array.now) }
{
    (0..4).any(|disk| array.look(disk).is_some())
}

impl<A: Array> Run<A> {
    // A run at its beginning; above an array with a fetch under way it is void.
    pub fn new(setting: Setting, array: A) -> Run<A>
        ensures instance { result.instance ≡ instance_of A.Placement A.Array.own setting array }
        ensures state { result.state ≡ beginning (instance_of A.Placement A.Array.own setting array) (A.Array.held array) }
        ensures joined { Joined A.Placement A.Array.own result }
    {
        let void = is_busy(&array);
        let cache = setting.initial();
        Run {
            setting,
            array,
            void,
            cursor: 0,
            elapsed: 0,
            stall: 0,
            orders: 0,
            cache,
        }
    }

    // Whether every request is served.
    pub fn is_finished(&self) -> bool
        ensures value { result ≡ finished self.now.instance self.now.state }
        ensures joined { Joined A.Placement A.Array.own self.now }
    {
        self.cursor == self.setting.len()
    }

    // An order's own tests, all that come before the array is asked.
    fn admit(&self, order: Order) -> Result<(), RunFault>
        ensures { answered run_fault result ≡ admit self.now.instance self.now.state order }
    {
        if self.void {
            return Err(RunFault::Void);
        }
        if self.is_finished() {
            return Err(RunFault::Finished {
                elapsed: self.elapsed,
            });
        }
        let Order { fetch, evict } = order;
        let blocks = self.setting.blocks();
        if fetch >= blocks {
            return Err(RunFault::NoSuchBlock { block: fetch });
        }
        if evict >= blocks {
            return Err(RunFault::NoSuchBlock { block: evict });
        }
        if has(self.cache, fetch) {
            return Err(RunFault::Cached { block: fetch });
        }
        if !has(self.cache, evict) {
            return Err(RunFault::NotCached { block: evict });
        }
        Ok(())
    }

    // Begins a fetch of one block; the other leaves the cache in the same moment.
    #[tactic(auto, using(maps::proofs::Maps::ones_without, tallies::proofs::Moves::evicts_cached))]
    pub fn order(&mut self, order: Order) -> Result<(), RunFault>
        ensures answers { told (answered run_fault result) ≡ answer self.old.instance self.old.state (order_call order) }
        ensures state { self.new.state ≡ next self.old.instance self.old.state (order_call order) }
        ensures instance { self.new.instance ≡ self.old.instance }
        ensures was_joined { Joined A.Placement A.Array.own self.old }
        ensures joined { Joined A.Placement A.Array.own self.new }
    {
        self.admit(order)?;
        self.array.begin(order.fetch)?;
        self.cache = without(self.cache, order.evict);
        self.orders += 1;
        Ok(())
    }

    // A unit's own tests; answers the block asked for.
    fn ready(&self) -> Result<u8, RunFault>
        ensures answers { answered run_fault result ≡ ready self.now.instance self.now.state }
        ensures asked { IfOk result (λ b. (b ≡ asked self.now.instance self.now.state.cursor) × (self.now.state.cursor < last self.now.instance) × (self.now.state.elapsed < 65535)) }
    {
        if self.void {
            return Err(RunFault::Void);
        }
        let Some(block) = self.setting.asked(self.cursor) else {
            return Err(RunFault::Finished {
                elapsed: self.elapsed,
            });
        };
        if self.elapsed == u16::MAX {
            return Err(RunFault::TooLong { stall: self.stall });
        }
        Ok(block)
    }

    // One unit of time: the block asked for is served if it is cached; then the disks work, and what arrives joins the cache.
    #[tactic(auto, using(crate::proofs::Counts::ones_joined))]
    pub fn unit(&mut self) -> Result<Progress, RunFault>
        ensures answers { unit_told result ≡ answer self.old.instance self.old.state unit_call }
        ensures state { self.new.state ≡ next self.old.instance self.old.state unit_call }
        ensures instance { self.new.instance ≡ self.old.instance }
        ensures was_joined { Joined A.Placement A.Array.own self.old }
        ensures joined { Joined A.Placement A.Array.own self.new }
    {
        let block = self.ready()?;
        let served = has(self.cache, block);
        self.elapsed += 1;
        self.cache |= self.array.step();
        if served {
            self.cursor += 1;
            Ok(Progress::Served { block })
        } else {
            self.stall += 1;
            Ok(Progress::Stalled { block })
        }
    }
}
