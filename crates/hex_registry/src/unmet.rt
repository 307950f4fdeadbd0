// Requirements that a pick doesn't meet.
ghost use Rattle.std.specs.Prelude.{◌≡◌, false, IfOk};
ghost use Rattle.std.specs.List.{list_any};
ghost use Rattle.std.specs.Option.{option_copied};
ghost use Rattle.hex_registry.specs.Breaches.{IsBreach, IsFirst, IsOfKind, SaysAgainst, first_demand_against, first_want_against};
ghost use Rattle.hex_registry.specs.declared.breach.Breach.TheVariants.{Unmet};
ghost use Rattle.hex_registry.specs.declared.unmet.By.TheVariants.{Package};
ghost use Rattle.hex_registry.specs.Picks.{any_release, demand_refuses, demand_takes, demands_at, want_refuses, want_takes};
ghost use Rattle.semver.specs.Identifiers.{parts_of};
ghost use Rattle.version_req.specs.Meaning.{sat};
ghost use Rattle.hex_registry.specs.Shelves.{is_among, without_apps};

use crate::breach::Breach;
use crate::offer::{Demand, Offer};
use crate::pick::{Pick, Picked};
use crate::registry::Registry;
use crate::wants::{Want, Wants};
use mx_base::{AppName, Names};
use semver::Version;
use std::alloc::AllocError;
use version_req::matches;

/// Who states a requirement.
#[derive(Drop)]
pub enum By {
    /// A want, by its place among the wants.
    Want(u64),
    /// The picked release of a package.
    Package(AppName),
}

/// The first picked package in byte order whose release doesn't meet a requirement in force.
#[tactic(auto, using(crate::proofs::FirstLemmas::unmet_first, crate::proofs::FirstLemmas::unmet_none))]
pub(crate) fn first_unmet(
    registry: &Registry,
    wants: &Wants,
    pick: &Pick,
) -> Result<Option<Breach>, AllocError>
    ensures { IfOk result (IsFirst (IsOfKind (IsBreach registry.now wants.now pick.now) 2)) }
{
    for picked in pick.as_slice() {
        if let Some(by) = against(registry, wants, pick, picked)? {
            return Ok(Some(unmet(picked, by)?));
        }
    }
    Ok(None)
}

fn unmet(picked: &Picked, by: By) -> Result<Breach, AllocError>
    ensures { IfOk result (λ breach. breach ≡ Unmet picked.now.0 by) }
{
    let package = picked.0.clone()?;
    Ok(Breach::Unmet { package, by })
}

// Who is the first to state a requirement that the picked release doesn't meet: wants come before packages.
fn against(
    registry: &Registry,
    wants: &Wants,
    pick: &Pick,
    picked: &Picked,
) -> Result<Option<By>, AllocError>
    ensures { IfOk result (SaysAgainst registry.now wants.now pick.now picked.now) }
{
    let Some(offer) = registry.offer(&picked.0, picked.1) else {
        return Ok(None);
    };
    if let Some(index) = first_want_against(wants, &picked.0, offer) {
        return Ok(Some(By::Want(index as u64)));
    }
    match first_demand_against(registry, wants, pick, &picked.0, offer) {
        Some(by) => Ok(Some(by_package(by)?)),
        None => Ok(None),
    }
}

fn by_package(picked: &Picked) -> Result<By, AllocError>
    ensures { IfOk result (λ by. by ≡ Package picked.now.0) }
{
    Ok(By::Package(picked.0.clone()?))
}

fn first_want_against(wants: &Wants, name: &AppName, offer: &Offer) -> Option<usize>
    ensures { result ≡ first_want_against wants.now name.now offer.now }
{
    wants
        .wants
        .as_slice()
        .iter()
        .position(|want| want_refuses(name, offer, want))
}

fn first_demand_against<'a>(
    registry: &Registry,
    wants: &Wants,
    pick: &'a Pick,
    name: &AppName,
    offer: &Offer,
) -> Option<&'a Picked>
    ensures { option_copied result
        ≡ first_demand_against registry.now wants.now pick.now (name.now, offer.now) }
{
    pick.as_slice()
        .iter()
        .find(|by| refuses(registry, wants, by, name, offer))
}

// Whether a picked release states a requirement in force that the release of the package doesn't meet.
fn refuses(registry: &Registry, wants: &Wants, by: &Picked, name: &AppName, offer: &Offer) -> bool
    ensures { result ≡ list_any (demand_refuses wants.now.overridden name.now offer.now)
        (demands_at registry.now wants.now by.now) }
{
    demands_refuse(wants, registry.demands(by), name, offer)
}

/// Whether one of these demands is in force on the package and isn't met by its release.
pub fn demands_refuse(wants: &Wants, demands: &[Demand], name: &AppName, offer: &Offer) -> bool
    ensures { result ≡ list_any (demand_refuses wants.now.overridden name.now offer.now)
        (without_apps wants.now.pinned demands.now) }
{
    for demand in demands {
        if wants.sets_aside(demand) {
            continue;
        }
        if demand_refuses(&wants.overridden, name, offer, demand) {
            return true;
        }
    }
    false
}

/// Whether a want is of the package and doesn't take its release.
pub fn wants_refuse(wants: &Wants, name: &AppName, offer: &Offer) -> bool
    ensures { result ≡ list_any (want_refuses name.now offer.now) wants.now.wants }
{
    wants
        .wants
        .as_slice()
        .iter()
        .any(|want| want_refuses(name, offer, want))
}

fn want_refuses(name: &AppName, offer: &Offer, want: &Want) -> bool
    ensures { result ≡ want_refuses name.now offer.now want.now }
{
    name == &want.package && !want_takes(offer, want)
}

/// Whether the demand is in force on the package and isn't met by its release.
pub fn demand_refuses(overridden: &Names, name: &AppName, offer: &Offer, demand: &Demand) -> bool
    ensures { result ≡ demand_refuses overridden.now name.now offer.now demand.now }
{
    name == &demand.package && !demand_takes(overridden, offer, demand)
}

/// Whether the want takes the release.
pub(crate) fn want_takes(offer: &Offer, want: &Want) -> bool
    ensures { result ≡ want_takes offer.now want.now }
{
    match &want.requirement {
        Some(requirement) => matches(requirement, &offer.version, false),
        None => is_release(&offer.version),
    }
}

// Whether `>= 0.0.0` takes the version, as it does with all but pre-releases.
#[tactic(auto, using(crate::proofs::AnyRelease::any_takes))]
fn is_release(version: &Version) -> bool
    ensures { result ≡ sat any_release (parts_of version.now) false }
{
    version.pre.is_empty()
}

/// Whether the demand takes the release, as it does where its requirement isn't in force.
pub(crate) fn demand_takes(overridden: &Names, offer: &Offer, demand: &Demand) -> bool
    ensures { result ≡ demand_takes overridden.now offer.now demand.now }
{
    is_among(&demand.app, overridden) || matches(&demand.requirement, &offer.version, false)
}

/// Whether the name is one of these.
pub(crate) fn is_among(name: &AppName, names: &Names) -> bool
    ensures { result ≡ is_among name.now names.now }
{
    names.as_slice().iter().any(|other| name == other)
}
