// Descriptions: what a later build compares.
ghost use Rattle.std.specs.Prelude.{◌≡◌, [], IfOk, length};
ghost use Rattle.mx_base.specs.AppName.{IsAppName};
ghost use Rattle.mx_base.specs.Digest.{IsDigest};
ghost use Rattle.reading.specs.Field.{FitInTurn};
ghost use Rattle.build_manifest.specs.Description.{description_of, need_digests, said_by};
ghost use Rattle.build_manifest.specs.Mark.{NeedFits};
ghost use Rattle.build_manifest.specs.MarkOf.{AppsDiffer};

use crate::mark::{Mark, NeedDigests};
use compile_model::{Input, Outcome};
use mx_base::{AppName, Bytes, Digest32, Listing};
use std::alloc::{AllocError, Global};

/// What a build is made from: all that a later build compares.
#[derive(Drop)]
pub struct Description {
    /// All that is said of how it is compiled.
    pub options: Bytes,
    /// The listing of the source files.
    pub sources: Listing,
    /// For each need the digest of its outputs, and its app.
    pub needs: NeedDigests,
}

/// The description of an input.
pub(crate) fn description_of(alloc: Global, input: &Input<'_>) -> Result<Description, AllocError>
    requires apart { AppsDiffer input.now.job.now.need_apps }
    requires each { length input.now.needs.now ≡ length input.now.job.now.need_apps }
    ensures is { IfOk result (λ made. made
        ≡ description_of input.now.job.now input.now.needs.now) }
    ensures fit { IfOk result (λ made. FitInTurn NeedFits [] made.needs) }
{
    let needs = need_digests(alloc, input)?;
    Ok(Description {
        options: input.job.options.clone()?,
        sources: input.job.rows.clone()?,
        needs,
    })
}

/// The description that a mark says.
pub(crate) fn said_by(mark: &Mark) -> Result<Description, AllocError>
    ensures is { IfOk result (λ said. said ≡ said_by mark.now) }
    ensures fit { IfOk result (λ said. FitInTurn NeedFits [] said.needs) }
{
    let needs = mark.needs.clone()?;
    Ok(Description {
        options: mark.options.clone()?,
        sources: mark.sources.clone()?,
        needs,
    })
}

#[tactic(auto, using(crate::proofs::MarkOfLemmas::needs_fit))]
fn need_digests(alloc: Global, input: &Input<'_>) -> Result<NeedDigests, AllocError>
    requires apart { AppsDiffer input.now.job.now.need_apps }
    requires each { length input.now.needs.now ≡ length input.now.job.now.need_apps }
    ensures is { IfOk result (λ needs. needs
        ≡ need_digests input.now.job.now.need_apps input.now.needs.now) }
    ensures fit { IfOk result (λ needs. FitInTurn NeedFits [] needs) }
{
    let mut made = NeedDigests::new(alloc);
    for (at, app) in input.job.need_apps.as_slice().iter().enumerate() {
        made.push(need_of(app, input.needs[at].get())?)?;
    }
    Ok(made)
}

// The digest of a need's outputs, and its app.
fn need_of(app: &AppName, outcome: &Outcome) -> Result<(Digest32, AppName), AllocError>
    ensures is { IfOk result (λ need. need ≡ (outcome.now.digest, app.now)) }
    ensures sound { IfOk result (λ need. IsDigest need.0 × IsAppName need.1) }
{
    // These calls tell what holds of a digest and of a name.
    let _ = outcome.digest.as_slice();
    let _ = app.as_str();
    Ok((outcome.digest, app.clone()?))
}
