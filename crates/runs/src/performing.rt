// Whole lists of calls. That the instance stays is said here too, call by call, as the array says it.
ghost use Rattle.std.specs.Prelude.{◌≡◌, map, IfOk, MatchResult};
ghost use Rattle.instances.specs.Instances.{instance_of};
ghost use Rattle.tallies.specs.Laws.{Lawful};
ghost use Rattle.tallies.specs.Tally.{beginning, answer, next, after, answers, tally};
ghost use Rattle.tallies.specs.Replies.{reply_answer};
ghost use Rattle.runs.specs.Standing.{Joined, Spent};

use crate::run::Run;
use arrays::Array;
use faults::RunFault;
use settings::Setting;
use std::alloc::{AllocError, Global};
use tallies::{Call, Reply};

impl<A: Array> Run<A> {
    // Makes one call.
    pub fn call(&mut self, call: Call) -> Result<Reply, RunFault>
        ensures answers { reply_answer result ≡ answer self.old.instance self.old.state call }
        ensures state { self.new.state ≡ next self.old.instance self.old.state call }
        ensures instance { self.new.instance ≡ self.old.instance }
        ensures was_joined { Joined A.Placement A.Array.own self.old }
        ensures joined { Joined A.Placement A.Array.own self.new }
    {
        // a call is data, read from bytes and kept in lists, so this is a `match` and no closure
        match call {
            Call::Order(order) => {
                self.order(order)?;
                Ok(Reply::Accepted)
            }
            Call::Unit => Ok(Reply::Passed(self.unit()?)),
        }
    }

    // Makes each call in turn, refused ones included, and answers the replies. Where memory is short, makes none.
    #[tactic(auto, using(crate::proofs::Lists::call_steps, crate::proofs::Spending::spent))]
    pub fn perform(
        &mut self,
        heap: Global,
        calls: &[Call],
    ) -> Result<Vec<Result<Reply, RunFault>>, AllocError>
        ensures answers { IfOk result (λ v. map reply_answer v.items ≡ answers self.old.instance self.old.state calls.now) }
        ensures state { MatchResult result (λ _. self.new.state ≡ after self.old.instance self.old.state calls.now) (λ _. self.new.state ≡ self.old.state) }
        ensures instance { self.new.instance ≡ self.old.instance }
        ensures was_joined { Joined A.Placement A.Array.own self.old }
        ensures joined { Joined A.Placement A.Array.own self.new }
        ensures spent { Spent self.new.instance self.new.state }
    {
        // the run is looked into, before the calls and after them, for the clauses on what is seen of it
        let _ = &self.setting;
        let mut replies = Vec::with_capacity(heap, calls.len())?;
        // tried as a `map` with `collect`: what its closure leaves of the run is not known then
        for call in calls {
            replies.push_reserved(self.call(*call));
        }
        let _ = &self.setting;
        Ok(replies)
    }
}

// A run after a whole list of calls, with the reply to each.
#[derive(Drop)]
pub struct Performance<A: Array> {
    pub run: Run<A>,
    pub replies: Vec<Result<Reply, RunFault>>,
}

// Makes a run of the setting and the array, and gives it every call of the list.
pub fn run_calls<A: Array + Drop>(
    heap: Global,
    setting: Setting,
    array: A,
    calls: &[Call],
) -> Result<Performance<A>, AllocError>
    ensures instance { IfOk result (λ p. p.run.instance ≡ instance_of A.Placement A.Array.own setting array) }
    ensures joined { IfOk result (λ p. Joined A.Placement A.Array.own p.run) }
    ensures state { IfOk result (λ p. p.run.state ≡ tally (instance_of A.Placement A.Array.own setting array) (A.Array.held array) calls.now) }
    ensures answers { IfOk result (λ p. map reply_answer p.replies.items ≡ answers (instance_of A.Placement A.Array.own setting array) (beginning (instance_of A.Placement A.Array.own setting array) (A.Array.held array)) calls.now) }
    ensures laws { Lawful (instance_of A.Placement A.Array.own setting array) (A.Array.held array) calls.now }
{
    let mut run = Run::new(setting, array);
    let replies = run.perform(heap, calls)?;
    Ok(Performance { run, replies })
}
