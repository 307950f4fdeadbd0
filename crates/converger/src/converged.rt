// Rows that live together.
ghost use Rattle.std.specs.Prelude.{◌≡◌, ◌<◌, ℕ, length, Some, None, IfOk, IfErr, IfSome, IfNone, IsSome, slice_get};
ghost use Rattle.std.specs.List.{All};
ghost use Rattle.dep_rows.specs.Rows.{most_rows};
ghost use Rattle.converger.specs.Converged.{AreConverged, HasCause};
ghost use Rattle.converger.specs.Reach.{AreReached};
ghost use Rattle.converger.specs.Divergence.{AreDivergences, IsWithoutVersion, parts_in};

use crate::divergence::Divergences;
use crate::reach::reach;
use crate::scene::Scene;
use crate::strays::strays;
use crate::web::web_of;
use dep_rows::Rows;
use mx_base::{AppName, ListOf};
use semver::Version;
use std::alloc::{AllocError, Global};

/// The versions of the winners, in their order, as far as they are known.
pub type Versions = ListOf<Option<Version>>;

/// Rows that live together, with a version of each winner.
#[derive(Drop)]
pub struct Converged {
    rows: Rows,
    versions: Versions,
}

impl Converged {
    /// The rows, and which of them win.
    pub fn rows(&self) -> &Rows
        ensures { result.now ≡ self.now.rows }
    {
        &self.rows
    }

    /// The versions of the winners, in their order.
    pub fn versions(&self) -> &[Option<Version>]
        ensures { result.now ≡ self.now.versions }
    {
        self.versions.as_slice()
    }
}

/// Why rows can't live together.
#[derive(Drop)]
pub enum ConvergeError {
    /// Some declarations can't live together with the winners of their apps.
    Diverged(Divergences),
    /// The first winner whose version isn't known.
    NoVersion { app: AppName },
    OutOfMemory,
}

impl From<AllocError> for ConvergeError {
    ghost use Rattle.std.specs.Prelude.{◌≡◌};
    ghost use Rattle.converger.specs.declared.converged.ConvergeError.TheVariants.{OutOfMemory};

    ghost from_gives = { λ _ e. e ≡ OutOfMemory };

    fn from(_: AllocError) -> ConvergeError {
        ConvergeError::OutOfMemory
    }
}

/// The rows, where by no rule two declarations can't live together, and each winner has a version.
pub fn converge(alloc: Global, rows: Rows, versions: Versions) -> Result<Converged, ConvergeError>
    requires { length versions ≡ length rows.winners }
    ensures rows { IfOk result (λ converged. converged.rows ≡ rows) }
    ensures versions { IfOk result (λ converged. converged.versions ≡ versions) }
    ensures converged { IfOk result (λ _. AreConverged rows.rows rows.winners versions) }
    ensures refused { IfErr result (HasCause rows.rows rows.winners versions) }
{
    let list = divergences(alloc, &rows, versions.as_slice())?;
    if !list.as_slice().is_empty() {
        return Err(ConvergeError::Diverged(list));
    }
    if let Some(app) = app_without_version(&rows, versions.as_slice())? {
        return Err(ConvergeError::NoVersion { app });
    }
    Ok(Converged { rows, versions })
}

/// All declarations that can't live together with the winners of their apps, by row and then by
/// rule.
pub fn divergences(
    alloc: Global,
    rows: &Rows,
    versions: &[Option<Version>],
) -> Result<Divergences, AllocError>
    requires { length versions.now ≡ length rows.now.winners }
    ensures { IfOk result
        (AreDivergences rows.now.rows rows.now.winners (parts_in versions.now)) }
{
    let strays = strays(alloc, rows)?;
    let scene = Scene {
        rows,
        versions,
        strays: &strays,
    };
    scene.divergences(alloc)
}

/// The app of the first winner that has no version.
fn app_without_version(
    rows: &Rows,
    versions: &[Option<Version>],
) -> Result<Option<AppName>, AllocError>
    requires { length versions.now ≡ length rows.now.winners }
    ensures none { IfOk result (λ found.
        IfNone found (All (λ version. IsSome version) versions.now)) }
    ensures app { IfOk result (λ found.
        IfSome found (IsWithoutVersion rows.now.rows rows.now.winners versions.now)) }
{
    let Some(at) = first_none(versions) else {
        return Ok(None);
    };
    let place = rows.winners()[at] as usize;
    let app = copied(&rows.rows()[place].app)?;
    Ok(Some(app))
}

fn copied(name: &AppName) -> Result<AppName, AllocError>
    ensures { IfOk result (λ copy. copy ≡ name.now) }
{
    name.clone()
}

/// Where the first version is missing.
fn first_none(versions: &[Option<Version>]) -> Option<usize>
    ensures none { IfNone result (All (λ version. IsSome version) versions.now) }
    ensures within { IfSome result (λ at. at < length versions.now) }
    ensures is { IfSome result (λ at. slice_get versions.now at ≡ Some None) }
    ensures first { IfSome result (λ at.
        (k : ℕ) → k < at → slice_get versions.now k ≡ Some None → ⊥) }
{
    for (at, version) in versions.iter().enumerate() {
        if version.is_none() {
            return Some(at);
        }
    }
    None
}

/// The places of all winners that are reached in the environment for the target, in order.
pub fn for_env(
    alloc: Global,
    converged: &Converged,
    env: &AppName,
    target: &AppName,
) -> Result<Vec<u32>, AllocError>
    ensures { IfOk result (λ places.
        AreReached converged.now.rows.rows env.now target.now places.items) }
{
    let web = web_of(alloc, &converged.rows, target.as_str())?;
    let places = reach(alloc, &web, env.as_str())?;
    narrowed(alloc, &places)
}

fn narrowed(alloc: Global, places: &[usize]) -> Result<Vec<u32>, AllocError>
    requires { All (λ place. place < most_rows) places.now }
    ensures { IfOk result (λ list. list.items ≡ places.now) }
{
    let mut list = Vec::with_capacity(alloc, places.len())?;
    for place in places {
        list.push(*place as u32)?;
    }
    Ok(list)
}
