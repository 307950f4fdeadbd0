// The events of a build.
ghost use Rattle.std.specs.Prelude.{◌≡◌, ◌≤◌, ◌↔◌, ◌+◌, ◌*◌, ◌<◌, [], length, map, slice_get, Some, IsOk, IfOk, IfSome, IfErr, IsTrue, OnOk, OnErr};
ghost use Rattle.std.specs.Option.{option_copied};
ghost use Rattle.compile_model.specs.Planned.{ArePlanned};
ghost use Rattle.compile_model.specs.Seq.{seq};
ghost use Rattle.partition_core.specs.State.{at, standing};
ghost use Rattle.partition_core.specs.Steps.{IsLegal, after};
ghost use Rattle.partition_core.specs.Histories.{IsFaithful, Legal, Faithful, Sound, Agrees};
ghost use Rattle.partition_core.specs.Refusals.{refusal, outcome_of, place_of};
ghost use Rattle.partition_core.specs.Nexts.{event_of, IsOfFree, IsUpTo, AreSettled, SomeRuns};
ghost use Rattle.partition_core.specs.Story.{state_now, with_event};

use crate::event::{Event, Illegal, Next, Standing};
use crate::lot::fate_at;
use crate::refusal::standing;
use crate::table::Table;
use compile_model::{Fate, Meaning, Outcome, Plan};
use mx_base::Shared;
use staleness::Kept;
use std::alloc::{AllocError, Global};
use std::marker::{Model, PhantomData};

/// What has happened in a build by several partitions. Contracts see its opening and its history, which
/// is legal.
#[derive(Drop)]
pub struct Core<M: Meaning> {
    table: Table,
    meaning: PhantomData<M>,
}

impl<M: Meaning> Model for Core<M> {
    ghost use Rattle.partition_core.specs.Story.{Story};

    ghost Value = { Story };

    ghost use Rattle.partition_core.specs.Tables.{IsCore, story_in};

    ghost view = { λ core. story_in core.table };

    ghost invariant = { λ core. IsCore M.honest M.compile_of core.table };
}

impl<M: Meaning> Core<M> {
    /// A build in which nothing has happened, with what was kept of each job or none. It takes all the
    /// memory that its steps need, and an error is want of memory.
    pub fn begin(
        alloc: Global,
        plan: Shared<Plan>,
        kept: Vec<Option<Kept>>,
        partitions: u32,
    ) -> Result<Core<M>, AllocError>
        requires planned { ArePlanned plan.jobs }
        requires places { length kept.items ≡ length plan.jobs }
        requires some { 1 ≤ partitions }
        requires few { partitions ≤ 64 }
        ensures { IfOk result (λ core. core ≡ record {
          opening = record { plan = plan; kept = kept.items; partitions = partitions };
          events
              = [];
        }) }
    {
        Ok(Core {
            table: Table::begin(alloc, plan, kept, partitions)?,
            meaning: PhantomData,
        })
    }

    /// Makes an event, if it is legal. Otherwise nothing changes, and the answer is the first cause. The
    /// fate is there for `Finish` and `Fail`, and holds the event's outcome.
    pub fn step(&mut self, event: Event, fate: Option<Shared<Outcome>>) -> Result<(), Illegal>
        requires fate { fate ≡ outcome_of event }
        requires meant { M.honest → IsLegal self.old.opening (state_now self.old) event
            → IsFaithful M.compile_of self.old.opening (state_now self.old) event }
        ensures ok { OnOk result (self.new ≡ with_event self.old event) }
        ensures state { OnOk result (state_now self.new
            ≡ after self.old.opening (state_now self.old) event) }
        ensures within { OnOk result (place_of event < length self.old.opening.plan.jobs) }
        ensures exact { IsLegal self.old.opening (state_now self.old) event → IsOk result }
        ensures bound { length self.new.events
            ≤ 2 * (length self.new.opening.plan.jobs + self.new.opening.partitions) }
        ensures legal { OnOk result (IsLegal self.old.opening (state_now self.old) event) }
        ensures illegal { IfErr result (λ e. refusal self.old.opening (state_now self.old) event
            ≡ Some e.cause) }
        ensures err { OnErr result (self.new ≡ self.old) }
    {
        self.table.step(event, fate)
    }

    /// What a free partition does next.
    pub fn next(&self, by: u32) -> Next
        requires { standing (state_now self.now).standings by ≡ Some Standing.Idle }
        // It is legal, and no event of a free partition is legal at an earlier place.
        ensures legal { (event : Event) → event_of result by ≡ Some event
            → IsLegal self.now.opening (state_now self.now) event }
        ensures first { (event : Event) → IsOfFree event
            → IsLegal self.now.opening (state_now self.now) event → IsUpTo (place_of event) result }
        ensures over { (result ≡ Next.Over) ↔ AreSettled (state_now self.now).fates }
        ensures later { result ≡ Next.Later → SomeRuns (state_now self.now) }
    {
        self.table.next()
    }

    /// Whether the partition of this number is free: it runs nothing, and hasn't ended.
    pub fn is_free(&self, by: u32) -> bool
        ensures free { IsTrue result → standing (state_now self.now).standings by
            ≡ Some Standing.Idle }
        ensures only { standing (state_now self.now).standings by ≡ Some Standing.Idle
            → IsTrue result }
    {
        match standing(self.table.standings.as_slice(), by) {
            Some(Standing::Idle) => true,
            _ => false,
        }
    }

    pub fn plan(&self) -> &Plan
        ensures value { result.now ≡ self.now.opening.plan }
        ensures planned { ArePlanned self.now.opening.plan.jobs }
    {
        self.table.plan.get()
    }

    /// The events so far, the first one first.
    pub fn history(&self) -> &[Event]
        ensures value { result.now ≡ self.now.events }
        ensures legal { Legal self.now.opening self.now.events }
    {
        self.table.history.as_slice()
    }

    /// What became of a place. There is none where it isn't a job's.
    pub fn fate(&self, place: u32) -> Option<&Fate>
        ensures fate { option_copied result ≡ at (state_now self.now).fates place }
        // It is the one of compiling job after job.
        ensures sequential { M.honest → Sound M.compile_of self.now.opening
            → IfSome (option_copied result) (λ fate. slice_get
            (seq M.compile_of self.now.opening.plan.jobs) place ≡ Some fate) }
    {
        fate_at(self.table.lots.as_slice(), place)
    }

    /// The fates by place, and the history.
    pub fn close(self) -> (Vec<Option<Fate>>, Vec<Event>)
        ensures fates { result.0.items ≡ (state_now self).fates }
        ensures history { result.1.items ≡ self.events }
        ensures legal { Legal self.opening self.events }
        ensures faithful { M.honest → Faithful M.compile_of self.opening self.events }
        // Each fate is the one of compiling job after job.
        ensures each { M.honest → Sound M.compile_of self.opening
            → Agrees result.0.items (seq M.compile_of self.opening.plan.jobs) }
        // Where each place has a fate, they are those of compiling job after job.
        ensures sequential { M.honest → Sound M.compile_of self.opening
            → AreSettled (state_now self).fates
            → result.0.items ≡ map Some (seq M.compile_of self.opening.plan.jobs) }
    {
        let Core { table, .. } = self;
        table.close()
    }
}
