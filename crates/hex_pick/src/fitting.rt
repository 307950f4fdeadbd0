// Whether a further release breaks a requirement.
ghost use Rattle.std.specs.Prelude.{◌≡◌, ◌++◌, map, IfOk, OnOk};
ghost use Rattle.std.specs.List.{list_all, list_any};
ghost use Rattle.hex_pick.specs.Fitting.{demands_on, fits, fits_offer, on_package, takes_picked};
ghost use Rattle.hex_registry.specs.Picks.{ArePicks, demand_refuses};
ghost use Rattle.hex_registry.specs.Shelves.{without_apps};

use hex_registry::{
    Demand, Offer, Pick, Registry, Wants, demand_refuses, demands_refuse, wants_refuse,
};
use mx_base::AppName;
use std::alloc::{AllocError, Global};

/// What picked releases demand of a package.
pub(crate) fn demands_on<'a>(
    alloc: Global,
    registry: &'a Registry,
    wants: &Wants,
    pick: &Pick,
    name: &AppName,
) -> Result<Vec<&'a Demand>, AllocError>
    ensures asked { IfOk result (λ asked. map (λ demand. demand.now) asked.items
        ≡ demands_on registry.now wants.now pick.now name.now) }
    ensures in_order { ArePicks pick.now }
{
    let mut asked = Vec::new(alloc);
    for by in pick.as_slice() {
        push_on(&mut asked, wants, registry.demands(by), name)?;
    }
    Ok(asked)
}

// Adds those of a release's demands that are on the package.
#[tactic(auto, using(crate::proofs::AskedLemmas::on_aside, crate::proofs::AskedLemmas::on_other, crate::proofs::AskedLemmas::on_this))]
fn push_on<'a>(
    asked: &mut Vec<&'a Demand>,
    wants: &Wants,
    demands: &'a [Demand],
    name: &AppName,
) -> Result<(), AllocError>
    ensures { OnOk result (map (λ demand. demand.now) asked.new.items
        ≡ map (λ demand. demand.now) asked.old.items
        ++ on_package name.now (without_apps wants.now.pinned demands.now)) }
{
    for demand in demands {
        if wants.sets_aside(demand) {
            continue;
        }
        if name == &demand.package {
            asked.push(demand)?;
        }
    }
    Ok(())
}

/// Whether the release of the package breaks no requirement beside those that are picked. Of these it looks only at
/// what they ask of the package, and at what the release asks for.
pub(crate) fn fits(
    registry: &Registry,
    wants: &Wants,
    pick: &Pick,
    asked: &[&Demand],
    name: &AppName,
    place: u64,
) -> bool
    requires asked { map (λ demand. demand.now) asked.now
        ≡ demands_on registry.now wants.now pick.now name.now }
    requires in_order { ArePicks pick.now }
    ensures { result ≡ fits registry.now wants.now pick.now (name.now, place) }
{
    let Some(offer) = registry.offer(name, place) else {
        return true;
    };
    if wants_refuse(wants, name, offer) {
        return false;
    }
    if demands_refuse(wants, offer.demands(), name, offer) {
        return false;
    }
    fits_beside(registry, wants, pick, asked, name, offer)
}

// Whether the release and each of those that are picked take one another.
fn fits_beside(
    registry: &Registry,
    wants: &Wants,
    pick: &Pick,
    asked: &[&Demand],
    name: &AppName,
    offer: &Offer,
) -> bool
    requires asked { map (λ demand. demand.now) asked.now
        ≡ demands_on registry.now wants.now pick.now name.now }
    requires in_order { ArePicks pick.now }
    ensures { result ≡ list_all (fits_offer registry.now wants.now name.now offer.now) pick.now }
{
    if any_refuses(wants, asked, name, offer) {
        return false;
    }
    all_take(registry, wants, pick, offer.demands())
}

fn any_refuses(wants: &Wants, asked: &[&Demand], name: &AppName, offer: &Offer) -> bool
    ensures { result ≡ list_any (λ demand.
        demand_refuses wants.now.overridden name.now offer.now demand.now) asked.now }
{
    asked.iter().any(|demand| demand_refuses(&wants.overridden, name, offer, *demand))
}

// Whether each of a release's demands takes what is picked of its package.
fn all_take(registry: &Registry, wants: &Wants, pick: &Pick, demands: &[Demand]) -> bool
    ensures { result ≡ list_all (takes_picked registry.now wants.now pick.now)
        (without_apps wants.now.pinned demands.now) }
{
    for demand in demands {
        if wants.sets_aside(demand) {
            continue;
        }
        if !takes_picked(registry, wants, pick, demand) {
            return false;
        }
    }
    true
}

// Whether a demand takes what is picked of its package, if anything is.
fn takes_picked(registry: &Registry, wants: &Wants, pick: &Pick, demand: &Demand) -> bool
    ensures { result ≡ takes_picked registry.now wants.now pick.now demand.now }
{
    let Some(place) = pick.place_of(&demand.package) else {
        return true;
    };
    match registry.offer(&demand.package, place) {
        Some(offer) => !demand_refuses(&wants.overridden, &demand.package, offer, demand),
        None => true,
    }
}
