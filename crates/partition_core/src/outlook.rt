// Which places offer an event.
ghost use Rattle.std.specs.Prelude.{◌≡◌, ◌<◌, ◌&&◌, [], false, not, length, replicate, slice_get, slice_set, is_none, is_some, IfOk};
ghost use Rattle.std.specs.List.{All};
ghost use Rattle.partition_core.specs.State.{at, built_at, first_open, is_running};
ghost use Rattle.partition_core.specs.Lots.{fates_of, state_of};
ghost use Rattle.partition_core.specs.Agendas.{HasFronts, IsFront, IsOutlook, is_decided, offers};

use crate::event::Standing;
use crate::lot::{Lot, built_at, fate_at};
use crate::place_set::PlaceSet;
use crate::refusal::is_running;
use compile_model::Plan;
use std::alloc::{AllocError, Global};

/// For each place whether it offers an event to a free partition, and how many of its first needs are
/// built.
#[derive(Drop)]
pub(crate) struct Outlook {
    pub offering: PlaceSet,
    // A need is passed once, when it is built, and not looked at again.
    pub fronts: Vec<usize>,
}

impl Outlook {
    /// An outlook of places that have still to be looked at.
    pub(crate) fn of(alloc: Global, count: usize) -> Result<Outlook, AllocError>
        ensures { IfOk result (λ outlook. (outlook.offering ≡ replicate count false)
            × (outlook.fronts.items ≡ replicate count 0)) }
    {
        Ok(Outlook {
            offering: PlaceSet::empty(alloc, count)?,
            fronts: vec![in alloc; 0; count]?,
        })
    }

    /// Looks at these places.
    #[tactic(auto, using(crate::proofs::OutlookLemmas::outlook_dropped))]
    pub(crate) fn look_at_all(
        &mut self,
        plan: &Plan,
        lots: &[Lot],
        standings: &[Standing],
        places: &[u32],
    )
        requires within { All (λ place. place < length plan.now.jobs) places.now }
        requires behind { IsOutlook plan.now.jobs (state_of lots.now standings.now)
            places.now self.old }
        ensures { IsOutlook plan.now.jobs (state_of lots.now standings.now) [] self.new }
    {
        for place in places {
            self.look_at(plan, lots, standings, *place);
        }
    }

    /// Looks at a place.
    pub(crate) fn look_at(&mut self, plan: &Plan, lots: &[Lot], standings: &[Standing], place: u32)
        requires within { place < length plan.now.jobs }
        requires fronts { HasFronts plan.now.jobs (fates_of lots.now) self.old }
        ensures fronts { HasFronts plan.now.jobs (fates_of lots.now) self.new }
        ensures flags { self.new.offering ≡ slice_set self.old.offering place
            (offers plan.now.jobs (state_of lots.now standings.now) place) }
    {
        let at = place as usize;
        let needs = plan.jobs.as_slice()[at].needs.as_slice();
        let front = front_from(lots, needs, self.fronts[at]);
        self.fronts[at] = front;
        let offers = is_offering(lots, standings, place, need_at(needs, front));
        self.offering.put(at, offers);
    }
}

fn need_at(needs: &[u32], front: usize) -> Option<u32>
    ensures { result ≡ slice_get needs.now front }
{
    needs.get(front).copied()
}

/// Whether a place offers an event, of whose needs this is the first that isn't built.
fn is_offering(lots: &[Lot], standings: &[Standing], place: u32, first: Option<u32>) -> bool
    ensures { result ≡ (is_none (at (fates_of lots.now) place)
        && (is_decided (fates_of lots.now) first && not (is_running standings.now place))) }
{
    fate_at(lots, place).is_none() && is_decided(lots, first) && !is_running(standings, place)
}

/// How many of the first needs are built, where that is known of so many.
#[tactic(auto, using(crate::proofs::Fronts::front_end))]
fn front_from(lots: &[Lot], needs: &[u32], known: usize) -> usize
    requires { IsFront (fates_of lots.now) needs.now known }
    ensures front { IsFront (fates_of lots.now) needs.now result }
    ensures first { first_open (fates_of lots.now) needs.now ≡ slice_get needs.now result }
{
    for front in known..needs.len() {
        if !is_built(lots, needs[front]) {
            return front;
        }
    }
    needs.len()
}

fn is_built(lots: &[Lot], place: u32) -> bool
    ensures { result ≡ is_some (built_at (fates_of lots.now) place) }
{
    built_at(lots, place).is_some()
}

/// Whether the first need that isn't built has a fate, where there is one.
fn is_decided(lots: &[Lot], first: Option<u32>) -> bool
    ensures { result ≡ is_decided (fates_of lots.now) first }
{
    match first {
        Some(need) => fate_at(lots, need).is_some(),
        None => true,
    }
}
