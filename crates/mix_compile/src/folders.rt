// Taking folders out of a store, and giving them back.
ghost use Rattle.std.specs.Prelude.{◌≡◌, IfOk, OnErr, length, map};
ghost use Rattle.mx_base.specs.Causes.{Rose};
ghost use Rattle.compile_model.specs.Planned.{ArePlanned};
ghost use Rattle.tree_store.specs.declared.key.BuildKey.{BuildKey};
ghost use Rattle.tree_store.specs.Slot.{AllHere};
ghost use Rattle.partition_crew.specs.Build.{SomeFailed};
ghost use Rattle.mix_compile.specs.Lending.{AreOut, AreTaken, brought};
ghost use Rattle.mix_compile.specs.Stopping.{CountsStop};

use compile_model::Plan;
use mix_answer::Stop;
use std::alloc::Global;
use tree_store::Store;

/// The folder of each job of a plan, in their order, none of which is then at home. After an error each is back.
pub(crate) fn take_folders<S: Store>(
    alloc: Global,
    store: &mut S,
    plan: &Plan,
) -> Result<Vec<S::F>, Stop>
    requires here { AllHere (S.known store.old).slot }
    requires planned { ArePlanned plan.now.jobs }
    ensures taken { IfOk result (λ folders. AreTaken plan.now (S.known store.old).slot
        (S.known store.new).slot (map S.F.known folders.items)) }
    ensures back { OnErr result ((q : BuildKey)
        → (S.known store.new).slot q ≡ (S.known store.old).slot q) }
    ensures sources { (S.known store.new).sources ≡ (S.known store.old).sources }
    ensures counts { CountsStop result (S.known store.old) (S.known store.new) }
{
    let jobs = plan.jobs.as_slice();
    let mut folders = Vec::with_capacity(alloc, jobs.len())?;
    for job in jobs {
        match store.folder(alloc, &plan.env, &job.app) {
            Ok(folder) => folders.push_reserved(folder),
            Err(fault) => {
                give_back(store, folders);
                return Err(Stop::from(fault));
            }
        }
    }
    Ok(folders)
}

/// Gives all of these folders back.
pub(crate) fn give_back<S: Store>(store: &mut S, mut folders: Vec<S::F>)
    requires { AreOut (S.known store.old).slot (map S.F.known folders.items) }
    ensures back { (q : BuildKey) → (S.known store.new).slot q
        ≡ brought (map S.F.known folders.items) (S.known store.old).slot q }
    ensures rest { S.known store.new ≡ record (S.known store.old) {
      slot = (S.known store.new).slot;
      returned = (S.known store.new).returned;
    } }
    // A folder with a fault is counted.
    ensures rose { SomeFailed (map S.F.known folders.items)
        → Rose (S.known store.old).returned (S.known store.new).returned }
    ensures kept { (SomeFailed (map S.F.known folders.items) → ⊥)
        → (S.known store.new).returned ≡ (S.known store.old).returned }
{
    'giving: while let Some(folder) = folders.pop() {
        store.give_back(folder);
    }
    folders.destroy_empty();
}
