// What may be done next.
ghost use Rattle.std.specs.Prelude.{◌≡◌, ◌==◌, ◌<◌, ℕ, true, None, Some, length, replicate, slice_get, IfOk, IfNone, IfSome};
ghost use Rattle.compile_model.specs.Planned.{ArePlanned};
ghost use Rattle.partition_core.specs.Refusals.{place_of};
ghost use Rattle.partition_core.specs.Lots.{fates_of, state_of};
ghost use Rattle.partition_core.specs.PlaceSets.{IsFirstOf};
ghost use Rattle.partition_core.specs.Agendas.{IsAgenda, IsBehind};

use crate::dependents::dependents_of;
use crate::event::{Event, Standing};
use crate::lot::Lot;
use crate::outlook::Outlook;
use compile_model::{Places, Plan};
use std::alloc::{AllocError, Global};

/// Which places offer an event, kept up from event to event. All events of a build together take time
/// in the places and their needs.
#[derive(Drop)]
pub(crate) struct Agenda {
    pub outlook: Outlook,
    // For each place the places that need it.
    pub dependents: Vec<Places>,
    // How many places have no fate.
    pub left: usize,
}

impl Agenda {
    /// The agenda of a build in which nothing has happened.
    pub(crate) fn begin(
        alloc: Global,
        plan: &Plan,
        lots: &[Lot],
        standings: &[Standing],
    ) -> Result<Agenda, AllocError>
        requires planned { ArePlanned plan.now.jobs }
        requires open_places { fates_of lots.now ≡ replicate (length plan.now.jobs) None }
        requires places { length lots.now ≡ length plan.now.jobs }
        ensures { IfOk result (IsAgenda plan.now.jobs (state_of lots.now standings.now)) }
    {
        let jobs = plan.jobs.as_slice();
        let mut outlook = Outlook::of(alloc, jobs.len())?;
        for place in 0..jobs.len() as u32 {
            outlook.look_at(plan, lots, standings, place);
        }
        Ok(Agenda {
            outlook,
            dependents: dependents_of(alloc, jobs)?,
            left: jobs.len(),
        })
    }

    /// Takes in what has happened.
    #[tactic(auto, using(crate::proofs::OutlookLemmas::outlook_looked))]
    pub(crate) fn take_in(
        &mut self,
        plan: &Plan,
        lots: &[Lot],
        standings: &[Standing],
        event: &Event,
    )
        requires within { place_of event.now < length plan.now.jobs }
        requires behind { IsBehind plan.now.jobs (state_of lots.now standings.now)
            event.now self.old }
        ensures { IsAgenda plan.now.jobs (state_of lots.now standings.now) self.new }
    {
        let place = event.place();
        self.outlook.look_at(plan, lots, standings, place);
        if event.settles() {
            self.left -= 1;
            let dependents = self.dependents[place as usize].as_slice();
            self.outlook.look_at_all(plan, lots, standings, dependents);
        }
    }

    /// The first place that offers an event.
    pub(crate) fn first(&self) -> Option<usize>
        ensures none { IfNone result ((place : ℕ) →
            slice_get self.now.outlook.offering place ≡ Some true → ⊥) }
        ensures first { IfSome result (IsFirstOf self.now.outlook.offering) }
    {
        self.outlook.offering.first()
    }

    /// Whether each place has a fate.
    pub(crate) fn is_over(&self) -> bool
        ensures { result ≡ (self.now.left == 0) }
    {
        self.left == 0
    }
}
