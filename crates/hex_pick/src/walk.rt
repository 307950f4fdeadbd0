// Where a search stands, and its moves.
ghost use Rattle.std.specs.Prelude.{◌≡◌, ◌<◌, ◌≤◌, ◌+◌, ◌^◌, ◌∷◌, ◌++◌, [], Some, IfSome, IfNone, IfOk, OnOk, length, map, slice_index, unwrap_or, nat_lt};
ghost use Rattle.hex_pick.specs.Fitting.{demands_on};
ghost use Rattle.hex_pick.specs.Walking.{SaysFit, Stands, WentOn, adding, stepped};
ghost use Rattle.hex_registry.specs.Picks.{ArePicks, without_package};

use crate::fitting::{demands_on, fits};
use hex_registry::{Demand, Pick, Registry, Wants};
use mx_base::AppName;
use std::alloc::{AllocError, Global};

/// A decision: a package, its candidates in their order, and which of them is tried next.
#[derive(Drop)]
pub(crate) struct Step {
    pub(crate) name: AppName,
    pub(crate) candidates: Vec<u64>,
    pub(crate) next: usize,
}

/// A partial pick, the decisions that led to it, how many nodes were met, and the package of the first dead end.
#[derive(Drop)]
pub(crate) struct Walk {
    pub(crate) pick: Pick,
    pub(crate) steps: Vec<Step>,
    pub(crate) count: u64,
    pub(crate) dead: Option<AppName>,
}

impl Walk {
    /// Goes to the next node: by the step, or by the last decision that has a candidate left. Where there is none, it
    /// answers the package of the first dead end.
    pub(crate) fn goes_on(
        &mut self,
        alloc: Global,
        registry: &Registry,
        wants: &Wants,
        step: Step,
    ) -> Result<Option<AppName>, AllocError>
        requires stands { Stands registry.now wants.now self.old step }
        requires room { self.old.count + 1 < 2 ^ 64 }
        ensures { IfOk result (WentOn registry.now wants.now self.old self.new) }
    {
        let mut step = step;
        'back: loop {
            if let Some(at) = next_fit(alloc, registry, wants, &self.pick, &step)? {
                self.decides(step, at)?;
                return Ok(None);
            }
            self.notes(&step.name)?;
            match self.goes_back() {
                Some(last) => step = last,
                None => return Ok(self.dead.take()),
            }
        }
    }

    // Picks the candidate at a place.
    fn decides(&mut self, step: Step, at: usize) -> Result<(), AllocError>
        requires within { at < length step.candidates.items }
        requires room { self.old.count + 1 < 2 ^ 64 }
        ensures pick { OnOk result (self.new.pick
            ≡ adding self.old.pick (step.name, slice_index step.candidates.items at)) }
        ensures steps { OnOk result (self.new.steps.items
            ≡ self.old.steps.items ++ stepped step at ∷ []) }
        ensures count { OnOk result (self.new.count ≡ self.old.count + 1) }
        ensures dead { OnOk result (self.new.dead ≡ self.old.dead) }
    {
        let mut step = step;
        self.pick.insert(step.name.clone()?, step.candidates[at])?;
        step.next = at + 1;
        self.steps.push(step)?;
        self.count += 1;
        Ok(())
    }

    // Notes a dead end, the first of which counts.
    fn notes(&mut self, name: &AppName) -> Result<(), AllocError>
        ensures noted { OnOk result (self.new
            ≡ record self.old { dead = Some (unwrap_or self.old.dead name.now) }) }
    {
        if self.dead.is_none() {
            self.dead = Some(name.clone()?);
        }
        Ok(())
    }

    // Takes the last decision back, where there is one.
    fn goes_back(&mut self) -> Option<Step>
        ensures last { IfSome result (λ last.
            self.old.steps.items ≡ self.new.steps.items ++ last ∷ []) }
        ensures pick { IfSome result (λ last.
            self.new.pick ≡ without_package self.old.pick last.name) }
        ensures none { IfNone result (self.old.steps.items ≡ []) }
        ensures count { self.new.count ≡ self.old.count }
        ensures dead { self.new.dead ≡ self.old.dead }
    {
        let last = self.steps.pop()?;
        self.pick.remove(&last.name);
        Some(last)
    }
}

// The place of the first candidate that fits, from the step's next on.
fn next_fit(
    alloc: Global,
    registry: &Registry,
    wants: &Wants,
    pick: &Pick,
    step: &Step,
) -> Result<Option<usize>, AllocError>
    ensures { IfOk result (SaysFit registry.now wants.now pick.now step.now) }
{
    let asked = demands_on(alloc, registry, wants, pick, &step.name)?;
    Ok(first_fit(registry, wants, pick, &asked, step))
}

// The same, by what is asked of the step's package.
fn first_fit(
    registry: &Registry,
    wants: &Wants,
    pick: &Pick,
    asked: &[&Demand],
    step: &Step,
) -> Option<usize>
    requires asked { map (λ demand. demand.now) asked.now
        ≡ demands_on registry.now wants.now pick.now step.now.name }
    requires in_order { ArePicks pick.now }
    ensures { SaysFit registry.now wants.now pick.now step.now result }
{
    for at in step.next..step.candidates.len() {
        if fits(
            registry,
            wants,
            pick,
            asked,
            &step.name,
            step.candidates[at],
        ) {
            return Some(at);
        }
    }
    None
}
