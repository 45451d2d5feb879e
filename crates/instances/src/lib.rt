// The instance that a setting and an array make: all that does not change while a run goes on.
#![tactic(auto)]

ghost use Rattle.instances.specs.Instances.{Sound, instance_of};

use arrays::Array;
use settings::Setting;

// Says nothing at run time: its contract is that every setting and every array, whoever wrote it, make a sound instance.
#[tactic(auto, using(crate::proofs::Soundness::sound))]
pub fn instance_is_sound<A: Array>(setting: &Setting, array: &A)
    ensures { Sound (instance_of A.Placement A.Array.own setting.now array.now) }
{}
