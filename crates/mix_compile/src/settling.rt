// What is done once each place has its fate.
ghost use Rattle.std.specs.Prelude.{◌≡◌, ◌≢◌, ◌++◌, IfOk, OnOk, length, map};
ghost use Rattle.std.specs.List.{AllPairs, list_any};
ghost use Rattle.compile_model.specs.Planned.{ArePlanned};
ghost use Rattle.tree_store.specs.Slot.{AllHere};
ghost use Rattle.kept_tree.specs.Faults.{KeepsRest};
ghost use Rattle.mix_report.specs.Report.{is_failed};
ghost use Rattle.mix_report.specs.Trace.{trace};
ghost use Rattle.mix_compile.specs.Right.{status_by, told_of};
ghost use Rattle.mix_compile.specs.Settling.{KeepsTree, Rewrites, Settles, built_apps};
ghost use Rattle.mix_compile.specs.Stopping.{CountsStop};

use compile_model::{Fate, Plan};
use kept_tree::{clear_apart, rewrite};
use mix_answer::{Answer, Status, Stop};
use mix_report::{report, trace};
use mx_base::AppName;
use partition_core::Event;
use std::alloc::{AllocError, Global};
use tree_store::Store;

/// Writes the older marks of what was built again, clears what wasn't built, and tells what became of each job.
pub(crate) fn settle<S: Store>(
    alloc: Global,
    plan: &Plan,
    fates: &[Fate],
    history: &[Event],
    traced: bool,
    store: &mut S,
) -> Result<Answer, Stop>
    requires here { AllHere (S.known store.old).slot }
    requires planned { ArePlanned plan.now.jobs }
    requires places { length fates.now ≡ length plan.now.jobs }
    ensures told { IfOk result (λ answer. (answer.status ≡ status_by fates.now)
        × (answer.text.items ≡ told_of traced plan.now fates.now history.now)) }
    ensures settled { OnOk result (Settles plan.now.env (built_apps plan.now.jobs fates.now)
        (S.known store.old).slot (S.known store.new).slot) }
    ensures tree { KeepsTree plan.now.env (S.known store.old).slot (S.known store.new).slot }
    ensures keeps { KeepsRest (S.known store.old) (S.known store.new) }
    ensures counts { CountsStop result (S.known store.old) (S.known store.new) }
{
    settle_tree(alloc, plan, fates, store)?;
    let text = tell(alloc, plan, fates, history, traced)?;
    Ok(Answer {
        status: status_by(fates),
        text,
    })
}

fn settle_tree<S: Store>(
    alloc: Global,
    plan: &Plan,
    fates: &[Fate],
    store: &mut S,
) -> Result<(), Stop>
    requires here { AllHere (S.known store.old).slot }
    requires planned { ArePlanned plan.now.jobs }
    requires places { length fates.now ≡ length plan.now.jobs }
    ensures settled { OnOk result (Settles plan.now.env (built_apps plan.now.jobs fates.now)
        (S.known store.old).slot (S.known store.new).slot) }
    ensures tree { KeepsTree plan.now.env (S.known store.old).slot (S.known store.new).slot }
    ensures keeps { KeepsRest (S.known store.old) (S.known store.new) }
    ensures counts { CountsStop result (S.known store.old) (S.known store.new) }
{
    let built = built_apps(alloc, plan, fates)?;
    rewrite_each(alloc, store, &plan.env, &built)?;
    clear_apart(alloc, store, &plan.env, &built)?;
    Ok(())
}

// The apps that were built.
fn built_apps<'a>(
    alloc: Global,
    plan: &'a Plan,
    fates: &[Fate],
) -> Result<Vec<&'a AppName>, AllocError>
    requires { length fates.now ≡ length plan.now.jobs }
    ensures { IfOk result (λ apps. map (λ app. app.now) apps.items
        ≡ built_apps plan.now.jobs fates.now) }
{
    let jobs = plan.jobs.as_slice();
    let mut apps = Vec::new(alloc);
    for (place, job) in jobs.iter().enumerate() {
        if let Fate::Built(_) = &fates[place] {
            apps.push(&job.app)?;
        }
    }
    Ok(apps)
}

// Writes the older marks of these apps again.
fn rewrite_each<S: Store>(
    alloc: Global,
    store: &mut S,
    env: &AppName,
    apps: &[&AppName],
) -> Result<(), Stop>
    requires here { AllHere (S.known store.old).slot }
    requires apart { AllPairs (λ one other. one ≢ other) (map (λ app. app.now) apps.now) }
    ensures rewritten { OnOk result (Rewrites env.now (map (λ app. app.now) apps.now)
        (S.known store.old).slot (S.known store.new).slot) }
    ensures tree { KeepsTree env.now (S.known store.old).slot (S.known store.new).slot }
    ensures keeps { KeepsRest (S.known store.old) (S.known store.new) }
    ensures counts { CountsStop result (S.known store.old) (S.known store.new) }
{
    for app in apps {
        rewrite(alloc, store, env, app)?;
    }
    Ok(())
}

// The report, and the trace where it is asked for.
fn tell(
    alloc: Global,
    plan: &Plan,
    fates: &[Fate],
    history: &[Event],
    traced: bool,
) -> Result<Vec<u8>, AllocError>
    requires { length fates.now ≡ length plan.now.jobs }
    ensures { IfOk result (λ text. text.items ≡ told_of traced plan.now fates.now history.now) }
{
    let text = report(alloc, plan, fates)?.into_vec();
    if traced {
        with_trace(alloc, plan, history, text)
    } else {
        Ok(text)
    }
}

// The text with the trace behind it.
fn with_trace(
    alloc: Global,
    plan: &Plan,
    history: &[Event],
    mut text: Vec<u8>,
) -> Result<Vec<u8>, AllocError>
    ensures { IfOk result (λ whole. whole.items ≡ text.items ++ trace plan.now.jobs history.now) }
{
    let lines = trace(alloc, plan, history)?;
    text.extend_from_slice(lines.as_slice())?;
    Ok(text)
}

/// The status by what became of each job: 1 where one failed.
pub fn status_by(fates: &[Fate]) -> Status
    ensures { result ≡ status_by fates.now }
{
    if any_failed(fates) {
        Status::SomeFailed
    } else {
        Status::Done
    }
}

fn any_failed(fates: &[Fate]) -> bool
    ensures { result ≡ list_any is_failed fates.now }
{
    fates.iter().any(|fate| is_failed(fate))
}

fn is_failed(fate: &Fate) -> bool
    ensures { result ≡ is_failed fate.now }
{
    matches!(fate, Fate::Failed(_))
}
