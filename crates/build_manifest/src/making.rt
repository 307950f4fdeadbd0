// Marks of what was built.
ghost use Rattle.std.specs.Prelude.{◌≡◌, [], IfOk, length};
ghost use Rattle.reading.specs.Field.{FitInTurn};
ghost use Rattle.build_manifest.specs.declared.mark.MarkFormat.TheVariants.{One};
ghost use Rattle.build_manifest.specs.Mark.{NeedFits};
ghost use Rattle.build_manifest.specs.MarkOf.{AppsDiffer, mark_in, mark_of, upgraded};

use crate::description::{Description, description_of, said_by};
use crate::diagnostics::diagnostics_of;
use crate::mark::{Mark, MarkFormat};
use compile_model::{Input, Outcome};
use mx_base::{Bytes, Listing};
use std::alloc::{AllocError, Global};

/// The mark of an input and its outcome, in the second form.
pub fn mark_of(alloc: Global, input: &Input<'_>, outcome: &Outcome) -> Result<Mark, AllocError>
    requires apart { AppsDiffer input.now.job.now.need_apps }
    requires each { length input.now.needs.now ≡ length input.now.job.now.need_apps }
    ensures { IfOk result (λ mark. mark
        ≡ mark_of input.now.job.now input.now.needs.now outcome.now) }
{
    let description = description_of(alloc, input)?;
    let mark = older(description, outcome.rows.clone()?, outcome.text.clone()?);
    newer(alloc, mark)
}

/// The same mark in the second form, with what its own text says of each source.
pub fn upgrade(alloc: Global, mark: &Mark) -> Result<Mark, AllocError>
    ensures { IfOk result (λ new. new ≡ upgraded mark.now) }
{
    let copy = older(said_by(mark)?, mark.outputs.clone()?, mark.text.clone()?);
    newer(alloc, copy)
}

// The mark in the first form that says this.
#[tactic(auto, using(crate::proofs::MarkOfLemmas::plain_fit))]
fn older(description: Description, outputs: Listing, text: Bytes) -> Mark
    requires { FitInTurn NeedFits [] description.needs }
    ensures { result ≡ mark_in One description outputs text }
{
    // These calls tell what holds of listings, and that no list has 2^63 elements.
    let _ = description.options.as_slice();
    let _ = description.sources.as_slice();
    let _ = description.needs.as_slice();
    let _ = outputs.as_slice();
    let _ = text.as_slice();
    Mark {
        format: MarkFormat::One,
        options: description.options,
        sources: description.sources,
        needs: description.needs,
        outputs,
        text,
    }
}

// A mark in the second form.
#[tactic(auto, using(crate::proofs::MarkOfLemmas::diagnosed_fit))]
fn newer(alloc: Global, mark: Mark) -> Result<Mark, AllocError>
    ensures { IfOk result (λ new. new ≡ upgraded mark) }
{
    let diagnostics = diagnostics_of(alloc, mark.sources.as_slice(), mark.text.as_slice())?;
    let Mark {
        options,
        sources,
        needs,
        outputs,
        text,
        ..
    } = mark;
    Ok(Mark {
        format: MarkFormat::Two { diagnostics },
        options,
        sources,
        needs,
        outputs,
        text,
    })
}
