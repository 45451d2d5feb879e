// What a run tells of itself, without changing.
ghost use Rattle.std.specs.Prelude.{◌≡◌};
ghost use Rattle.instances.specs.Instances.{instance_of};
ghost use Rattle.runs.specs.Standing.{Counted, Joined, Spent};

use crate::run::Run;
use arrays::Array;
use settings::Setting;

impl<A: Array> Run<A> {
    // Whether a fetch was under way when the run was made.
    pub fn is_void(&self) -> bool
        ensures value { result ≡ self.now.state.void }
        ensures joined { Joined A.Placement A.Array.own self.now }
    {
        self.void
    }

    // The requests served.
    pub fn cursor(&self) -> u8
        ensures value { result ≡ self.now.state.cursor }
        ensures joined { Joined A.Placement A.Array.own self.now }
    {
        self.cursor
    }

    // The units gone by: each served a request or stalled.
    pub fn elapsed(&self) -> u16
        ensures value { result ≡ self.now.state.elapsed }
        ensures spent { Spent self.now.instance self.now.state }
        ensures joined { Joined A.Placement A.Array.own self.now }
    {
        self.elapsed
    }

    // The units that stalled.
    pub fn stall(&self) -> u16
        ensures value { result ≡ self.now.state.stall }
        ensures joined { Joined A.Placement A.Array.own self.now }
    {
        self.stall
    }

    // The orders accepted, which are bounded by the units gone by.
    pub fn orders(&self) -> u32
        ensures value { result ≡ self.now.state.orders }
        ensures counted { Counted self.now.instance self.now.state }
        ensures joined { Joined A.Placement A.Array.own self.now }
    {
        self.orders
    }

    // The map of the blocks in the cache.
    pub fn cache(&self) -> u64
        ensures value { result ≡ self.now.state.cache }
        ensures joined { Joined A.Placement A.Array.own self.now }
    {
        self.cache
    }

    // The setting, to be read.
    pub fn setting(&self) -> &Setting
        ensures lent { result.now ≡ self.now.setting }
        ensures instance { self.now.instance ≡ instance_of A.Placement A.Array.own result.now self.now.array }
        ensures disks { self.now.state.disks ≡ A.Array.held self.now.array }
    {
        &self.setting
    }

    // The array, to be read.
    pub fn array(&self) -> &A
        ensures lent { result.now ≡ self.now.array }
        ensures instance { self.now.instance ≡ instance_of A.Placement A.Array.own self.now.setting result.now }
        ensures disks { self.now.state.disks ≡ A.Array.held result.now }
    {
        &self.array
    }
}

// Does nothing at run time: its contract is what every run keeps of its counts, whoever lends it and whatever it was given.
#[tactic(auto, using(crate::proofs::Spending::spent))]
pub fn run_is_counted<A: Array>(run: &Run<A>)
    ensures counted { Counted run.now.instance run.now.state }
    ensures spent { Spent run.now.instance run.now.state }
{}
