// Reading what is kept.
ghost use Rattle.std.specs.Prelude.{◌≡◌, All, IfOk, IfSome};
ghost use Rattle.mx_base.specs.Blame.{Computes, fails};
ghost use Rattle.tree_store.specs.Blame.{blame_of};
ghost use Rattle.tree_store.specs.FolderKnown.{Looks};
ghost use Rattle.tree_store.specs.Slot.{AllHere};
ghost use Rattle.honest_tree.specs.KeptOf.{AreKeptOf, IsKeptAt, IsKeptOf};
ghost use Rattle.kept_tree.specs.Faults.{ReadsBuilds};
ghost use Rattle.kept_tree.specs.Reading.{IsKeptWith, IsMarkIn, IsMarkOf, IsWhole};

use crate::fault::KeptFault;
use build_manifest::{Mark, MarkError, read_mark};
use compile_model::{Outcome, Plan};
use mx_base::{AppName, Files, Shared};
use staleness::{Kept, same_rows};
use std::alloc::{AllocError, Global};
use tree_store::{Folder, Store, StoreFault};

/// What is kept of each job of a plan, in their order: the mark and the outcome of its build, where the mark reads
/// and lists the build's files. Each file is read once and digested once.
///
/// # Errors
///
/// `Read` where the store failed, or a folder. Never `Tree`.
pub fn read_kept<S: Store>(
    alloc: Global,
    store: &mut S,
    plan: &Plan,
) -> Result<Vec<Option<Kept>>, KeptFault>
    requires { AllHere (S.known store.old).slot }
    ensures kept { IfOk result (λ kept.
        AreKeptOf (S.known store.old).slot plan.now kept.items) }
    ensures whole { IfOk result (λ kept. All (λ entry. IfSome entry IsWhole) kept.items) }
    ensures reads { ReadsBuilds result (S.known store.old) (S.known store.new) }
{
    let jobs = plan.jobs.as_slice();
    let mut kept = Vec::with_capacity(alloc, jobs.len())?;
    for job in jobs {
        let entry = read_app(alloc, store, &plan.env, &job.app)?;
        kept.push(entry)?;
    }
    Ok(kept)
}

fn read_app<S: Store>(
    alloc: Global,
    store: &mut S,
    env: &AppName,
    app: &AppName,
) -> Result<Option<Kept>, KeptFault>
    requires { AllHere (S.known store.old).slot }
    ensures kept { IfOk result (IsKeptAt ((S.known store.old).slot
        (record { env = env.now; app = app.now }))) }
    ensures whole { IfOk result (λ entry. IfSome entry IsWhole) }
    ensures reads { ReadsBuilds result (S.known store.old) (S.known store.new) }
{
    let mut folder = store.folder(alloc, env, app)?;
    let entry = read_folder(alloc, &mut folder);
    store.give_back(folder);
    Ok(entry?)
}

fn read_folder<F: Folder>(alloc: Global, folder: &mut F) -> Result<Option<Kept>, StoreFault>
    ensures kept { IfOk result (λ entry. IfSome (F.known folder.old).held
        (λ held. IsKeptOf held entry)) }
    ensures whole { IfOk result (λ entry. IfSome entry IsWhole) }
    ensures looks { Looks (F.known folder.old) (F.known folder.new) (fails blame_of result) }
{
    let Some(mark) = mark_of_folder(alloc, folder)? else {
        return Ok(None);
    };
    let files = folder.files(alloc)?;
    Ok(kept_with(alloc, mark, files)?)
}

/// The mark of a folder, where one stands that reads.
pub(crate) fn mark_of_folder<F: Folder>(
    alloc: Global,
    folder: &mut F,
) -> Result<Option<Mark>, StoreFault>
    ensures mark { IfOk result (λ mark. IfSome (F.known folder.old).held
        (λ held. IsMarkIn held.mark mark)) }
    ensures looks { Looks (F.known folder.old) (F.known folder.new) (fails blame_of result) }
{
    match folder.read_mark(alloc)? {
        Some(bytes) => Ok(mark_of(alloc, bytes.as_slice())?),
        None => Ok(None),
    }
}

fn mark_of(alloc: Global, bytes: &[u8]) -> Result<Option<Mark>, AllocError>
    ensures { IfOk result (IsMarkOf bytes.now) }
{
    match read_mark(alloc, bytes) {
        Ok(mark) => Ok(Some(mark)),
        Err(MarkError::Refused { .. }) => Ok(None),
        Err(MarkError::OutOfMemory) => Err(AllocError),
    }
}

// A mark with the outcome of these files, where it lists them.
fn kept_with(alloc: Global, mark: Mark, files: Files) -> Result<Option<Kept>, AllocError>
    ensures { IfOk result (IsKeptWith mark files) }
{
    let outcome = Outcome::of(alloc, 0, mark.text.clone()?, files)?;
    if !same_rows(mark.outputs.as_slice(), outcome.rows.as_slice()) {
        return Ok(None);
    }
    let outcome = Shared::new(alloc, outcome)?;
    Ok(Some(Kept { mark, outcome }))
}
