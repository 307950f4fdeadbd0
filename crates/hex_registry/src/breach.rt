// Whether a pick is valid, and else why it isn't.
ghost use Rattle.std.specs.Prelude.{◌↔◌, IsTrue, IsNone, IfOk};
ghost use Rattle.hex_registry.specs.Breaches.{SaysBreach};
ghost use Rattle.hex_registry.specs.Valid.{IsValid};

use crate::missing::{first_not_candidate, first_not_picked};
use crate::pick::Pick;
use crate::reach::first_unreached;
use crate::registry::Registry;
use crate::unmet::{By, first_unmet};
use crate::wants::Wants;
use mx_base::AppName;
use std::alloc::{AllocError, Global};

/// Why a pick isn't valid.
#[derive(Drop)]
pub enum Breach {
    /// A want or a picked release requires the package, which isn't picked.
    NotPicked(AppName),
    /// The release that is picked of the package isn't one of its candidates.
    NotCandidate(AppName),
    /// A requirement on the package is in force that its release doesn't meet. `by` is the first want that states
    /// such a one, and where none does the first package in byte order.
    Unmet { package: AppName, by: By },
    /// The package is picked, and no want comes to it by required dependencies.
    Unreached(AppName),
}

/// The first reason why the pick isn't valid, in the order of the kinds and then of the packages' bytes, and none
/// exactly where it is valid.
#[tactic(auto, using(crate::proofs::KindLemmas::first_0, crate::proofs::KindLemmas::first_1, crate::proofs::KindLemmas::first_2, crate::proofs::KindLemmas::first_3))]
pub fn first_breach(
    alloc: Global,
    registry: &Registry,
    wants: &Wants,
    pick: &Pick,
) -> Result<Option<Breach>, AllocError>
    ensures first { IfOk result (SaysBreach registry.now wants.now pick.now) }
    ensures valid { IfOk result (λ found.
        IsNone found ↔ IsValid registry.now wants.now pick.now) }
{
    if let Some(breach) = first_not_picked(registry, wants, pick)? {
        return Ok(Some(breach));
    }
    if let Some(breach) = first_not_candidate(registry, pick)? {
        return Ok(Some(breach));
    }
    if let Some(breach) = first_unmet(registry, wants, pick)? {
        return Ok(Some(breach));
    }
    first_unreached(alloc, registry, wants, pick)
}

/// Whether the pick is valid.
pub fn is_valid_pick(
    alloc: Global,
    registry: &Registry,
    wants: &Wants,
    pick: &Pick,
) -> Result<bool, AllocError>
    ensures { IfOk result (λ valid. IsTrue valid ↔ IsValid registry.now wants.now pick.now) }
{
    Ok(first_breach(alloc, registry, wants, pick)?.is_none())
}
