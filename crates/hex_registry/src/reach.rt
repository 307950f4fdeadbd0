// Which picked packages are reached from wants.
ghost use Rattle.std.specs.Prelude.{◌≡◌, ◌<◌, ◌↔◌, ℕ, Some, IsTrue, IfOk, IfSome, IfNone, slice_get};
ghost use Rattle.std.specs.List.{All, AllPairs, Contains};
ghost use Rattle.dep_order.specs.Reach.{AreReachedFrom};
ghost use Rattle.hex_registry.specs.Breaches.{IsBreach, IsFirst, IsOfKind};
ghost use Rattle.hex_registry.specs.Picks.{ArePicks, IsReached};
ghost use Rattle.hex_registry.specs.Reach.{graph_of, links_of, starts_of};
ghost use Rattle.hex_registry.specs.Shelves.{without_apps};
ghost use Rattle.hex_registry.specs.declared.breach.Breach.TheVariants.{Unreached};

use crate::breach::Breach;
use crate::offer::Demand;
use crate::pick::{Pick, Picked};
use crate::registry::Registry;
use crate::wants::{Want, Wants};
use dep_order::{Graph, Places, reached};
use std::alloc::{AllocError, Global};

/// The first picked package in byte order that no want comes to by required dependencies.
pub(crate) fn first_unreached(
    alloc: Global,
    registry: &Registry,
    wants: &Wants,
    pick: &Pick,
) -> Result<Option<Breach>, AllocError>
    ensures first { IfOk result (IsFirst (IsOfKind (IsBreach registry.now wants.now pick.now) 3)) }
    ensures whole { IfOk result (λ found. IfNone found (ArePicks pick.now
        × All (λ picked. IsReached registry.now wants.now pick.now picked.0) pick.now)) }
{
    let reached = reached_places(alloc, registry, wants, pick)?;
    match first_gap(&reached, pick.as_slice().len()) {
        Some(place) => Ok(Some(unreached(&pick.as_slice()[place])?)),
        None => Ok(None),
    }
}

fn unreached(picked: &Picked) -> Result<Breach, AllocError>
    ensures { IfOk result (λ breach. breach ≡ Unreached picked.now.0) }
{
    Ok(Breach::Unreached(picked.0.clone()?))
}

// The places of the picked packages that wants come to.
#[tactic(auto, using(crate::proofs::ReachLemmas::needs_within))]
fn reached_places(
    alloc: Global,
    registry: &Registry,
    wants: &Wants,
    pick: &Pick,
) -> Result<Vec<usize>, AllocError>
    ensures { IfOk result (λ places. AreReachedFrom (graph_of registry.now wants.now pick.now)
        (starts_of pick.now wants.now.wants) places.items) }
{
    let graph = Graph::of(links(alloc, registry, wants, pick)?);
    let starts = starts_of(alloc, wants.wants.as_slice(), pick)?;
    reached(alloc, &graph, &starts)
}

// For each picked package the places of those that its release requires.
fn links(
    alloc: Global,
    registry: &Registry,
    wants: &Wants,
    pick: &Pick,
) -> Result<Vec<Places>, AllocError>
    ensures { IfOk result (λ links. links.items ≡ graph_of registry.now wants.now pick.now) }
{
    let mut links = Vec::new(alloc);
    for by in pick.as_slice() {
        links.push(links_of(alloc, wants, pick, registry.demands(by))?)?;
    }
    Ok(links)
}

// The places of the picked packages that these demands require.
#[tactic(auto, using(crate::proofs::Walks::links_aside, crate::proofs::Walks::links_optional, crate::proofs::Walks::links_none, crate::proofs::Walks::links_some))]
fn links_of(
    alloc: Global,
    wants: &Wants,
    pick: &Pick,
    demands: &[Demand],
) -> Result<Places, AllocError>
    ensures { IfOk result (λ places. places
        ≡ links_of pick.now (without_apps wants.now.pinned demands.now)) }
{
    let mut places = Places::new(alloc);
    for demand in demands {
        if wants.sets_aside(demand) {
            continue;
        }
        if demand.optional {
            continue;
        }
        if let Some(place) = pick.index_of(&demand.package) {
            places.push(place)?;
        }
    }
    Ok(places)
}

// The places of the picked packages that wants require.
#[tactic(auto, using(crate::proofs::Walks::starts_optional, crate::proofs::Walks::starts_none, crate::proofs::Walks::starts_some))]
fn starts_of(alloc: Global, wants: &[Want], pick: &Pick) -> Result<Vec<usize>, AllocError>
    ensures { IfOk result (λ starts. starts.items ≡ starts_of pick.now wants.now) }
{
    let mut starts = Vec::new(alloc);
    for want in wants {
        if want.optional {
            continue;
        }
        if let Some(place) = pick.index_of(&want.package) {
            starts.push(place)?;
        }
    }
    Ok(starts)
}

// The first place below the count that isn't among these, which increase.
fn first_gap(places: &[usize], count: usize) -> Option<usize>
    requires in_order { AllPairs (λ earlier later. earlier < later) places.now }
    requires within { All (λ place. place < count) places.now }
    ensures gap { IfSome result (λ place. (place < count) × (Contains places.now place → ⊥)
        × ((earlier : ℕ) → earlier < place → Contains places.now earlier)) }
    ensures none { IfNone result ((place : ℕ) → place < count → Contains places.now place) }
{
    for place in 0..count {
        if !stands_at(places, place) {
            return Some(place);
        }
    }
    None
}

fn stands_at(places: &[usize], place: usize) -> bool
    ensures { IsTrue result ↔ (slice_get places.now place ≡ Some place) }
{
    match places.get(place) {
        Some(found) => *found == place,
        None => false,
    }
}
