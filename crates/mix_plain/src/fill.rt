// Putting what was built, each build with its mark.
ghost use Rattle.std.specs.Prelude.{◌≡◌, ◌+◌, ◌<◌, IfOk, None, OnOk, length, option_map};
ghost use Rattle.mx_base.specs.Blame.{fails};
ghost use Rattle.mx_base.specs.Causes.{Counted};
ghost use Rattle.mx_base.specs.Order.{AreInOrder};
ghost use Rattle.compile_model.specs.Planned.{IsNamed};
ghost use Rattle.compile_model.specs.Seq.{first_unbuilt, outcomes_of};
ghost use Rattle.build_manifest.specs.MarkOf.{AppsDiffer, mark_of};
ghost use Rattle.build_manifest.specs.Text.{Spells};
ghost use Rattle.tree_store.specs.Blame.{blame_of};
ghost use Rattle.tree_store.specs.FolderKnown.{IsBare, StopsIn};
ghost use Rattle.tree_store.specs.Holding.{marked, only_files};
ghost use Rattle.tree_store.specs.Slot.{AllHere, ChangesSlot, changed_slot, emptied_slot};
ghost use Rattle.kept_tree.specs.Faults.{CountsWrites, KeepsRest};
ghost use Rattle.kept_tree.specs.Tree.{IsTree};
ghost use Rattle.mix_plain.specs.Filling.{AreFates, FillsBuild, FillsPartly, IsEmptyIn, IsFilling, IsFillingAt, first_of};

use build_manifest::{mark_of, write_mark};
use compile_model::{Fate, Input, Job, Outcome, Plan, outcomes};
use kept_tree::KeptFault;
use mx_base::{AppName, Bytes, File};
use std::alloc::{AllocError, Global};
use tree_store::{Folder, Store, StoreFault, put_files};

/// Puts the files of each built place into the folder of its app, and then its mark, into an empty environment.
///
/// # Errors
///
/// `Read` where the store failed, `Tree` where a folder did: each build is then as it was, or is partly filled with
/// what its job was built to.
pub(crate) fn fill_env<S: Store>(
    alloc: Global,
    plan: &Plan,
    fates: &[Fate],
    store: &mut S,
) -> Result<(), KeptFault>
    requires here { AllHere (S.known store.old).slot }
    requires fates { AreFates plan.now fates.now }
    requires empty { IsEmptyIn plan.now.env (S.known store.old).slot }
    ensures tree { OnOk result (IsTree plan.now fates.now (S.known store.new).slot) }
    ensures part { FillsPartly plan.now fates.now (S.known store.old).slot (S.known store.new).slot }
    ensures keeps { KeepsRest (S.known store.old) (S.known store.new) }
    ensures counts { CountsWrites result (S.known store.old) (S.known store.new) }
{
    for place in 0..fates.len() {
        fill_place(alloc, plan, fates, place, store)?;
    }
    Ok(())
}

// Puts what was built of a place, where it was.
fn fill_place<S: Store>(
    alloc: Global,
    plan: &Plan,
    fates: &[Fate],
    place: usize,
    store: &mut S,
) -> Result<(), KeptFault>
    requires here { AllHere (S.known store.old).slot }
    requires fates { AreFates plan.now fates.now }
    requires within { place < length fates.now }
    requires before { IsTree (first_of place plan.now) fates.now (S.known store.old).slot }
    ensures after { OnOk result (IsTree (first_of (place + 1) plan.now) fates.now
        (S.known store.new).slot) }
    ensures part { FillsPartly plan.now fates.now (S.known store.old).slot (S.known store.new).slot }
    ensures keeps { KeepsRest (S.known store.old) (S.known store.new) }
    ensures counts { CountsWrites result (S.known store.old) (S.known store.new) }
{
    let job = &plan.jobs.as_slice()[place];
    match &fates[place] {
        Fate::Built(outcome) => {
            let outcome = outcome.get();
            let mark = mark_text(alloc, job, fates, outcome)?;
            let files = outcome.files.as_slice();
            fill_app(alloc, &plan.env, &job.app, files, mark.as_slice(), store)
        }
        Fate::Failed(_) | Fate::Skipped { .. } => Ok(()),
    }
}

// The text of the mark of a job, whose needs came to these fates, and its outcome.
fn mark_text(
    alloc: Global,
    job: &Job,
    fates: &[Fate],
    outcome: &Outcome,
) -> Result<Bytes, AllocError>
    requires named { IsNamed job.now }
    requires apart { AppsDiffer job.now.need_apps }
    requires needs { first_unbuilt fates.now job.now.needs ≡ None }
    ensures { IfOk result (λ text. Spells text
        (mark_of job.now (outcomes_of fates.now job.now.needs) outcome.now)) }
{
    let needs = outcomes(alloc, fates, job.needs.as_slice())?;
    let input = Input {
        job,
        needs: needs.as_slice(),
    };
    let mark = mark_of(alloc, &input, outcome)?;
    write_mark(alloc, &mark)
}

// Puts files and then their mark into the empty folder of an app.
fn fill_app<S: Store>(
    alloc: Global,
    env: &AppName,
    app: &AppName,
    files: &[File],
    mark: &[u8],
    store: &mut S,
) -> Result<(), KeptFault>
    requires here { AllHere (S.known store.old).slot }
    requires empty { (S.known store.old).slot (record { env = env.now; app = app.now })
        ≡ emptied_slot ((S.known store.old).slot (record { env = env.now; app = app.now })) }
    requires in_order { AreInOrder files.now }
    ensures filled { OnOk result (ChangesSlot (record { env = env.now; app = app.now })
        (changed_slot (λ held. marked mark.now (only_files files.now)))
        (S.known store.old).slot (S.known store.new).slot) }
    ensures part { FillsBuild (record { env = env.now; app = app.now })
        (IsFillingAt files.now mark.now) (S.known store.old).slot (S.known store.new).slot }
    ensures keeps { KeepsRest (S.known store.old) (S.known store.new) }
    ensures counts { CountsWrites result (S.known store.old) (S.known store.new) }
{
    let mut folder = store.folder(alloc, env, app)?;
    let filled = put_marked(alloc, files, mark, &mut folder);
    store.give_back(folder);
    match filled {
        Ok(()) => Ok(()),
        Err(fault) => Err(KeptFault::of_write(fault)),
    }
}

// Puts files into an empty folder, and then the mark beside them.
fn put_marked<F: Folder>(
    alloc: Global,
    files: &[File],
    mark: &[u8],
    folder: &mut F,
) -> Result<(), StoreFault>
    requires bare { IsBare (F.known folder.old) }
    requires in_order { AreInOrder files.now }
    ensures held { OnOk result ((F.known folder.new).held
        ≡ option_map (λ held. marked mark.now (only_files files.now)) (F.known folder.old).held) }
    ensures stops { StopsIn (IsFilling files.now mark.now) (F.known folder.old)
        (F.known folder.new) }
    ensures cause { Counted (F.known folder.old).faults (F.known folder.new).faults
        (fails blame_of result) }
{
    put_files(alloc, files, folder)?;
    folder.mark(alloc, mark)
}
