// Packages that aren't picked, or not of their candidates.
ghost use Rattle.std.specs.Prelude.{◌≡◌, find, not, ◌&&◌, Some, None, IfOk};
ghost use Rattle.std.specs.Option.{option_copied};
ghost use Rattle.hex_registry.specs.Breaches.{IsBreach, IsFirst, IsOfKind, lesser_of};
ghost use Rattle.hex_registry.specs.declared.breach.Breach.TheVariants.{NotCandidate, NotPicked};
ghost use Rattle.hex_registry.specs.Missing.{least_with, missing_demands, missing_names, missing_wants};
ghost use Rattle.hex_registry.specs.Picks.{ArePicks, has_package, is_candidate};
ghost use Rattle.hex_registry.specs.Shelves.{without_apps};
ghost use Rattle.hex_registry.specs.declared.wants.Wants.{Wants};

use crate::breach::Breach;
use crate::offer::Demand;
use crate::pick::{Pick, Picked};
use crate::registry::Registry;
use crate::wants::{Want, Wants};
use mx_base::AppName;
use std::alloc::AllocError;

/// The first package in byte order that is required and not picked.
pub(crate) fn first_not_picked(
    registry: &Registry,
    wants: &Wants,
    pick: &Pick,
) -> Result<Option<Breach>, AllocError>
    ensures { IfOk result (IsFirst (IsOfKind (IsBreach registry.now wants.now pick.now) 0)) }
{
    match first_missing(registry, wants, pick) {
        Some(name) => Ok(Some(not_picked(name)?)),
        None => Ok(None),
    }
}

fn not_picked(name: &AppName) -> Result<Breach, AllocError>
    ensures { IfOk result (λ breach. breach ≡ NotPicked name.now) }
{
    Ok(Breach::NotPicked(name.clone()?))
}

/// The package that is decided next: the least in byte order that is required and not picked.
pub fn first_missing<'a>(
    registry: &'a Registry,
    wants: &'a Wants,
    pick: &Pick,
) -> Option<&'a AppName>
    ensures { option_copied result
        ≡ least_with None (missing_names registry.now wants.now pick.now) }
{
    let mut least = least_wanted(wants.wants.as_slice(), pick);
    for by in pick.as_slice() {
        least = least_demanded(least, wants, pick, registry.demands(by));
    }
    least
}

// The least of these packages that are required and not picked.
fn least_wanted<'a>(wants: &'a [Want], pick: &Pick) -> Option<&'a AppName>
    ensures { option_copied result ≡ least_with None (missing_wants pick.now wants.now) }
{
    let mut least = None;
    for want in wants {
        if misses(pick, want.optional, &want.package) {
            least = lesser(least, &want.package);
        }
    }
    least
}

// The least of a name and of the packages that demands require and that aren't picked.
fn least_demanded<'a>(
    least: Option<&'a AppName>,
    wants: &Wants,
    pick: &Pick,
    demands: &'a [Demand],
) -> Option<&'a AppName>
    ensures { option_copied result ≡ least_with (option_copied least.entry)
        (missing_demands pick.now (without_apps wants.now.pinned demands.now)) }
{
    let mut low = least;
    for demand in demands {
        if wants.sets_aside(demand) {
            continue;
        }
        if misses(pick, demand.optional, &demand.package) {
            low = lesser(low, &demand.package);
        }
    }
    low
}

fn misses(pick: &Pick, optional: bool, name: &AppName) -> bool
    ensures { result ≡ (not optional && not (has_package pick.now name.now)) }
{
    !optional && !pick.has(name)
}

fn lesser<'a>(least: Option<&'a AppName>, name: &'a AppName) -> Option<&'a AppName>
    ensures { option_copied result ≡ Some (lesser_of (option_copied least.entry) name.now) }
{
    match least {
        Some(other) if other <= name => Some(other),
        _ => Some(name),
    }
}

/// The first picked package in byte order whose release isn't one of its candidates.
#[tactic(auto, using(crate::proofs::MissingLemmas::no_not_candidate))]
pub(crate) fn first_not_candidate(
    registry: &Registry,
    pick: &Pick,
) -> Result<Option<Breach>, AllocError>
    ensures { (wants : Wants) → IfOk result
        (IsFirst (IsOfKind (IsBreach registry.now wants pick.now) 1)) }
{
    match first_outside(registry, pick) {
        Some(picked) => Ok(Some(not_candidate(picked)?)),
        None => Ok(None),
    }
}

fn not_candidate(picked: &Picked) -> Result<Breach, AllocError>
    ensures { IfOk result (λ breach. breach ≡ NotCandidate picked.now.0) }
{
    Ok(Breach::NotCandidate(picked.0.clone()?))
}

fn first_outside<'a>(registry: &Registry, pick: &'a Pick) -> Option<&'a Picked>
    ensures found { option_copied result
        ≡ find (λ picked. not (is_candidate registry.now picked)) pick.now }
    ensures in_order { ArePicks pick.now }
{
    pick.as_slice()
        .iter()
        .find(|picked| !is_candidate(registry, picked))
}

fn is_candidate(registry: &Registry, picked: &Picked) -> bool
    ensures { result ≡ is_candidate registry.now picked.now }
{
    match registry.offer(&picked.0, picked.1) {
        Some(offer) => offer.is_usable(),
        None => false,
    }
}
