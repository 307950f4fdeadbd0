// The search for the preferred pick.
ghost use Rattle.std.specs.Prelude.{◌≡◌, ◌<◌, ◌+◌, ◌^◌, [], find, Some, None, bytes_eq, IfOk};
ghost use Rattle.std.specs.Option.{option_copied};
ghost use Rattle.mx_base.specs.Blame.{Answers};
ghost use Rattle.hex_registry.specs.Candidates.{AreCandidatesOf};
ghost use Rattle.hex_registry.specs.Shelves.{stock_of};
ghost use Rattle.hex_pick.specs.Outcome.{SaysPick, blame_of};
ghost use Rattle.hex_pick.specs.Problem.{locked_of};

use crate::error::PickError;
use crate::walk::{Step, Walk};
use hex_registry::{Locked, Pick, Registry, Wants, first_missing};
use mx_base::{AppName, Text};
use std::alloc::{AllocError, Global};

/// How many nodes of the tree may come before the pick.
pub const MOST_NODES: u64 = 1_000_000;

/// The valid pick of releases that is preferred to every other.
///
/// # Errors
///
/// `NoPick` exactly where no pick is valid and the tree has at most `MOST_NODES` nodes. `TooManyNodes` exactly where
/// more of them come before the preferred pick, or, where no pick is valid, before the end of the tree.
pub fn pick(alloc: Global, registry: &Registry, wants: &Wants) -> Result<Pick, PickError>
    ensures { Answers blame_of result (SaysPick registry.now wants.now MOST_NODES) }
{
    pick_within(alloc, registry, wants, MOST_NODES)
}

/// The same, with so many nodes at most before the pick, or in a tree without one.
///
/// # Errors
///
/// As those of `pick`, at this number in place of `MOST_NODES`.
pub fn pick_within(
    alloc: Global,
    registry: &Registry,
    wants: &Wants,
    limit: u64,
) -> Result<Pick, PickError>
    requires { limit + 1 < 2 ^ 64 }
    ensures { Answers blame_of result (SaysPick registry.now wants.now limit) }
{
    let mut walk = Walk {
        pick: Pick::new(alloc),
        steps: Vec::new(alloc),
        count: 0,
        dead: None,
    };
    'walk: while let Some(name) = first_missing(registry, wants, &walk.pick) {
        if walk.count > limit {
            return Err(PickError::TooManyNodes);
        }
        let step = first_step(alloc, registry, wants, name)?;
        if let Some(package) = walk.goes_on(alloc, registry, wants, step)? {
            return Err(PickError::NoPick { package });
        }
    }
    Ok(walk.pick)
}

// The decision of a package, with none of its candidates tried.
fn first_step(
    alloc: Global,
    registry: &Registry,
    wants: &Wants,
    name: &AppName,
) -> Result<Step, AllocError>
    ensures name { IfOk result (λ step. step.name ≡ name.now) }
    ensures next { IfOk result (λ step. step.next ≡ 0) }
    ensures candidates { IfOk result (λ step. AreCandidatesOf (stock_of registry.now name.now)
        (locked_of wants.now.locked name.now) step.candidates.items) }
{
    let candidates = registry.candidates(alloc, name, locked_of(wants, name))?;
    Ok(Step {
        name: name.clone()?,
        candidates,
        next: 0,
    })
}

// The text of the version that is locked of a package.
fn locked_of<'a>(wants: &'a Wants, name: &AppName) -> Option<&'a Text>
    ensures { option_copied result ≡ locked_of wants.now.locked name.now }
{
    let (_, text) = locked_entry(wants, name)?;
    Some(text)
}

fn locked_entry<'a>(wants: &'a Wants, name: &AppName) -> Option<&'a Locked>
    ensures { option_copied result ≡ find (λ entry. bytes_eq name.now entry.0) wants.now.locked }
{
    wants
        .locked
        .as_slice()
        .iter()
        .find(|entry| name == &entry.0)
}
