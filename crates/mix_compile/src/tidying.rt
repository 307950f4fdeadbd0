// What is done before a build.
ghost use Rattle.std.specs.Prelude.{◌≡◌, All, IfOk, IfSome, OnOk, map};
ghost use Rattle.tree_store.specs.Slot.{AllHere};
ghost use Rattle.honest_tree.specs.KeptOf.{AreKeptOf};
ghost use Rattle.kept_tree.specs.Clearing.{Clears, is_apart};
ghost use Rattle.kept_tree.specs.Faults.{KeepsRest};
ghost use Rattle.kept_tree.specs.Reading.{IsWhole};
ghost use Rattle.mix_compile.specs.Settling.{KeepsTree};
ghost use Rattle.mix_compile.specs.Stopping.{CountsStop};

use compile_model::Plan;
use kept_tree::{clear_apart, read_kept};
use mix_answer::Stop;
use mx_base::AppName;
use partition_core::Kept;
use std::alloc::{AllocError, Global};
use tree_store::Store;

/// What is kept of each job of a plan; the builds of other apps are cleared.
pub(crate) fn tidy<S: Store>(
    alloc: Global,
    store: &mut S,
    plan: &Plan,
) -> Result<Vec<Option<Kept>>, Stop>
    requires { AllHere (S.known store.old).slot }
    ensures kept { IfOk result (λ kept. AreKeptOf (S.known store.old).slot plan.now kept.items
        × All (λ entry. IfSome entry IsWhole) kept.items) }
    ensures cleared { OnOk result (Clears (is_apart plan.now.env (map (λ job. job.app) plan.now.jobs))
        (S.known store.old).slot (S.known store.new).slot) }
    ensures tree { KeepsTree plan.now.env (S.known store.old).slot (S.known store.new).slot }
    ensures keeps { KeepsRest (S.known store.old) (S.known store.new) }
    ensures counts { CountsStop result (S.known store.old) (S.known store.new) }
{
    let kept = read_kept(alloc, store, plan)?;
    let apps = apps_of(alloc, plan)?;
    clear_apart(alloc, store, &plan.env, &apps)?;
    Ok(kept)
}

// The apps of a plan.
fn apps_of<'a>(alloc: Global, plan: &'a Plan) -> Result<Vec<&'a AppName>, AllocError>
    ensures { IfOk result (λ apps. map (λ app. app.now) apps.items
        ≡ map (λ job. job.app) plan.now.jobs) }
{
    let jobs = plan.jobs.as_slice();
    let mut apps = Vec::new(alloc);
    for job in jobs {
        apps.push(&job.app)?;
    }
    Ok(apps)
}
