// The places, the partitions and the history, and one step of them.
ghost use Rattle.std.specs.Prelude.{◌≡◌, ◌+◌, ◌-◌, ◌<◌, ◌≤◌, [], ◌∷◌, ◌++◌, None, length, map, replicate, slice_set, ℕ, IsOk, IfOk, IfSome, IfNone, IfErr, OnOk, OnErr, vec_capacity};
ghost use Rattle.compile_model.specs.Planned.{ArePlanned};
ghost use Rattle.partition_core.specs.Steps.{IsLegal, after, effect};
ghost use Rattle.partition_core.specs.Refusals.{refusal, outcome_of, place_of};
ghost use Rattle.partition_core.specs.Lots.{fates_of, kepts_of, state_of};
ghost use Rattle.partition_core.specs.Nexts.{offer, IsFirst, IsNext};
ghost use Rattle.partition_core.specs.Story.{with_event};
ghost use Rattle.partition_core.specs.Tables.{IsTable, IsDue, story_in, opening_in, state_in};

use crate::agenda::Agenda;
use crate::event::{Event, Illegal, IllegalCause, Next, Standing};
use crate::lot::{Lot, fate_at, keep_at, missing, settle_at, stands};
use crate::refusal::{is_running, refusal};
use compile_model::{Fate, Outcome, Plan};
use mx_base::Shared;
use staleness::Kept;
use std::alloc::{AllocError, Global};

#[derive(Drop)]
pub struct Table {
    pub plan: Shared<Plan>,
    pub lots: Vec<Lot>,
    /// What each partition does, the first one's first.
    pub standings: Vec<Standing>,
    pub history: Vec<Event>,
    /// Room for the fates, once the build is over.
    pub spare: Vec<Option<Fate>>,
    /// What may be done next.
    pub agenda: Agenda,
}

impl Table {
    /// The table in which nothing has happened, with room for every legal history.
    pub fn begin(
        alloc: Global,
        plan: Shared<Plan>,
        kept: Vec<Option<Kept>>,
        partitions: u32,
    ) -> Result<Table, AllocError>
        requires planned { ArePlanned plan.jobs }
        requires places { length kept.items ≡ length plan.jobs }
        requires few { partitions ≤ 64 }
        ensures story { IfOk result (λ t. story_in t
            ≡ record {
              opening = record {
                plan = plan;
                kept = kept.items;
                partitions = partitions;
              };
              events = [];
            }) }
        ensures table { IfOk result IsTable }
    {
        let jobs = plan.get().jobs.as_slice().len();
        let lots = open(alloc, kept)?;
        let standings = idle(alloc, partitions)?;
        let agenda = Agenda::begin(alloc, plan.get(), lots.as_slice(), standings.as_slice())?;
        let history = Vec::with_capacity(alloc, 2 * (jobs + partitions as usize))?;
        let spare = Vec::with_capacity(alloc, jobs)?;
        Ok(Table {
            plan,
            lots,
            standings,
            history,
            spare,
            agenda,
        })
    }

    /// The fates by place, and the history.
    pub fn close(self) -> (Vec<Option<Fate>>, Vec<Event>)
        requires { IsTable self }
        ensures fates { result.0.items ≡ (state_in self).fates }
        ensures history { result.1.items ≡ self.history.items }
    {
        let Table {
            lots,
            history,
            spare,
            ..
        } = self;
        (fates(lots, spare), history)
    }

    /// Makes an event, if it is legal.
    pub fn step(&mut self, event: Event, fate: Option<Shared<Outcome>>) -> Result<(), Illegal>
        requires table { IsTable self.old }
        requires fate { fate ≡ outcome_of event }
        ensures ok { OnOk result (story_in self.new ≡ with_event (story_in self.old) event) }
        ensures state { OnOk result (state_in self.new
            ≡ after (opening_in self.old) (state_in self.old) event) }
        ensures within { OnOk result (place_of event < length self.old.plan.jobs) }
        ensures exact { IsLegal (opening_in self.old) (state_in self.old) event → IsOk result }
        ensures legal { OnOk result (IsLegal (opening_in self.old) (state_in self.old) event) }
        ensures illegal { IfErr result (λ e. refusal (opening_in self.old) (state_in self.old)
            event ≡ Some e.cause) }
        ensures err { OnErr result (story_in self.new ≡ story_in self.old) }
        ensures table { IsTable self.new }
    {
        if let Some(cause) = self.refusal(&event) {
            return Err(Illegal { cause });
        }
        happen(&mut self.lots, &mut self.standings, &event, fate);
        self.agenda.take_in(
            self.plan.get(),
            self.lots.as_slice(),
            self.standings.as_slice(),
            &event,
        );
        note(&mut self.history, event);
        Ok(())
    }

    /// What a free partition may do at a place.
    fn offer(&self, place: u32) -> Option<Next>
        requires table { IsTable self.now }
        requires within { place < length self.now.lots.items }
        ensures { result ≡ offer (opening_in self.now) (state_in self.now) place }
    {
        let lots = self.lots.as_slice();
        if fate_at(lots, place).is_some() || is_running(self.standings.as_slice(), place) {
            return None;
        }
        let job = &self.plan.get().jobs.as_slice()[place as usize];
        match missing(lots, job.needs.as_slice()) {
            None => {
                if stands(job, lots, &lots[place as usize]) {
                    Some(Next::Keep(place))
                } else {
                    Some(Next::Start(place))
                }
            }
            Some(need) => {
                if fate_at(lots, need).is_some() {
                    Some(Next::Skip { place, need })
                } else {
                    None
                }
            }
        }
    }

    /// The first event that a place offers.
    fn first_offer(&self) -> Option<Next>
        requires { IsTable self.now }
        ensures found { IfSome result (IsFirst (opening_in self.now) (state_in self.now)) }
        ensures none { IfNone result ((place : ℕ) → place < length (state_in self.now).fates
            → offer (opening_in self.now) (state_in self.now) place ≡ None) }
    {
        let place = self.agenda.first()?;
        self.offer(place as u32)
    }

    /// What a free partition does next.
    pub fn next(&self) -> Next
        requires { IsTable self.now }
        ensures { IsNext (opening_in self.now) (state_in self.now) result }
    {
        if let Some(next) = self.first_offer() {
            return next;
        }
        if self.agenda.is_over() {
            Next::Over
        } else {
            Next::Later
        }
    }

    fn refusal(&self, event: &Event) -> Option<IllegalCause>
        requires { IsTable self.now }
        ensures { result ≡ refusal (opening_in self.now) (state_in self.now) event.now }
    {
        refusal(
            self.plan.get(),
            self.lots.as_slice(),
            self.standings.as_slice(),
            event,
        )
    }
}

fn open(alloc: Global, kept: Vec<Option<Kept>>) -> Result<Vec<Lot>, AllocError>
    ensures { IfOk result (λ lots. lots.items ≡ map (λ k. Lot.Open k) kept.items) }
{
    kept.into_iter().map(|k| Lot::Open(k)).collect(alloc)
}

fn fates(mut lots: Vec<Lot>, mut spare: Vec<Option<Fate>>) -> Vec<Option<Fate>>
    requires empty { spare.items ≡ [] }
    requires room { length lots.items ≤ vec_capacity spare }
    ensures { result.items ≡ fates_of lots.items }
{
    while let Some(lot) = lots.pop() {
        if spare.push(lot.into_fate()).is_err() {
            unreachable!();
        }
    }
    spare.reverse();
    spare
}

#[tactic(auto, using(std::proofs::lemmas::List::replicate_more))]
fn idle(alloc: Global, partitions: u32) -> Result<Vec<Standing>, AllocError>
    ensures { IfOk result (λ standings. standings.items ≡ replicate partitions Standing.Idle) }
{
    let mut standings = Vec::new(alloc);
    for _ in 0..partitions {
        standings.push(Standing::Idle)?;
    }
    Ok(standings)
}

fn happen(
    lots: &mut Vec<Lot>,
    standings: &mut Vec<Standing>,
    event: &Event,
    fate: Option<Shared<Outcome>>,
)
    requires due { IsDue lots.old.items standings.old.items event.now }
    requires fate { fate ≡ outcome_of event.now }
    ensures state { state_of lots.new.items standings.new.items
        ≡ effect (kepts_of lots.old.items) (state_of lots.old.items standings.old.items) event.now }
    ensures kept { kepts_of lots.new.items ≡ kepts_of lots.old.items }
    ensures places { length lots.new.items ≡ length lots.old.items }
    ensures partitions { length standings.new.items ≡ length standings.old.items }
{
    happen_in(lots.as_mut_slice(), standings.as_mut_slice(), event, fate);
}

fn happen_in(
    lots: &mut [Lot],
    standings: &mut [Standing],
    event: &Event,
    fate: Option<Shared<Outcome>>,
)
    requires due { IsDue lots.old standings.old event.now }
    requires fate { fate ≡ outcome_of event.now }
    ensures state { state_of lots.new standings.new
        ≡ effect (kepts_of lots.old) (state_of lots.old standings.old) event.now }
    ensures kept { kepts_of lots.new ≡ kepts_of lots.old }
{
    match event {
        Event::Keep { place, .. } => keep_at(lots, *place),
        Event::Start { place, by } => stand(standings, *by, Standing::Runs(*place)),
        Event::Finish { place, by, .. } => {
            let Some(outcome) = fate else {
                unreachable!();
            };
            settle_at(lots, *place, Fate::Built(outcome));
            stand(standings, *by, Standing::Idle);
        }
        Event::Fail { place, by, .. } => {
            let Some(outcome) = fate else {
                unreachable!();
            };
            settle_at(lots, *place, Fate::Failed(outcome));
            stand(standings, *by, Standing::Idle);
        }
        Event::Skip { place, need, .. } => {
            settle_at(lots, *place, Fate::Skipped { need: *need })
        }
        Event::Back { by, .. } => stand(standings, *by, Standing::Ended),
    }
}

fn stand(standings: &mut [Standing], by: u32, now: Standing)
    requires low { 0 < by }
    requires high { by ≤ length standings.old }
    ensures { standings.new ≡ slice_set standings.old (by - 1) now }
{
    standings[by as usize - 1] = now;
}

fn note(history: &mut Vec<Event>, event: Event)
    requires { length history.old.items < vec_capacity history.old }
    ensures items { history.new.items ≡ history.old.items ++ event ∷ [] }
    ensures capacity { vec_capacity history.old ≤ vec_capacity history.new }
{
    if history.push(event).is_err() {
        unreachable!();
    }
}
