// The command `deps.compile`.
ghost use Rattle.std.specs.Prelude.{◌≡◌, length, IfOk, OnOk};
ghost use Rattle.std.specs.List.{list_any};
ghost use Rattle.mx_base.specs.BuildName.{HasBuildName};
ghost use Rattle.compile_model.specs.Planned.{ArePlanned};
ghost use Rattle.tree_store.specs.declared.key.BuildKey.{BuildKey};
ghost use Rattle.tree_store.specs.Slot.{AllHere};
ghost use Rattle.build_plan.specs.Plan.{build_of};
ghost use Rattle.mix_main.specs.Answer.{Fails, reply_in};
ghost use Rattle.mix_main.specs.Compile.{Builds, Compiles, Stands, status_by};
ghost use Rattle.mix_main.specs.Filling.{BeginsEnv, filled_by};
ghost use Rattle.mix_main.specs.Tree.{StaysElsewhere};
ghost use Rattle.mix_main.specs.World.{Keeps, passage_of, site_of};
ghost use Rattle.mix_report.specs.Report.{report, is_failed};

use crate::answer::{Answer, Stop};
use crate::clear::clear_env;
use crate::fill::fill_env;
use crate::refusal::refuse;
use crate::status::Status;
use build_plan::plan;
use compile_model::{Compiler, Fate, Plan, seq_build};
use mix_report::report;
use mx_base::AppName;
use std::alloc::Global;
use tree_store::Store;

/// Builds the plan of the project for a target from an empty environment.
pub(crate) fn compile<S: Store, C: Compiler>(
    alloc: Global,
    env: &AppName,
    target: &AppName,
    store: &mut S,
    compiler: &mut C,
) -> Result<Answer, Stop>
    requires here { AllHere (S.known store.old).slot }
    requires named { HasBuildName env.now target.now }
    ensures ends { Compiles C.compile_of (build_of env.now target.now)
        (passage_of (site_of (S.known store.old) (C.deaths compiler.old))
        (site_of (S.known store.new) (C.deaths compiler.new))) (reply_in result) }
    ensures keeps { Keeps (S.known store.old) (S.known store.new) }
{
    match plan(alloc, store, env, target) {
        Ok(plan) => build(alloc, &plan, store, compiler),
        Err(error) => refuse(alloc, &error),
    }
}

// Builds the jobs of a plan.
fn build<S: Store, C: Compiler>(
    alloc: Global,
    plan: &Plan,
    store: &mut S,
    compiler: &mut C,
) -> Result<Answer, Stop>
    requires here { AllHere (S.known store.old).slot }
    requires planned { ArePlanned plan.now.jobs }
    ensures ends { Builds C.compile_of plan.now
        (passage_of (site_of (S.known store.old) (C.deaths compiler.old))
        (site_of (S.known store.new) (C.deaths compiler.new))) (reply_in result) }
    ensures stands { Stands C.compile_of plan.now (S.known store.old).slot (S.known store.new).slot }
    ensures elsewhere { StaysElsewhere plan.now.env (S.known store.old).slot
        (S.known store.new).slot }
    ensures keeps { Keeps (S.known store.old) (S.known store.new) }
{
    clear_env(alloc, &plan.env, store)?;
    let fates = seq_build(alloc, plan, compiler)?;
    finish(alloc, plan, &fates, store)
}

// Puts what was built into an empty environment, and reports it.
fn finish<S: Store>(
    alloc: Global,
    plan: &Plan,
    fates: &[Fate],
    store: &mut S,
) -> Result<Answer, Stop>
    requires lengths { length fates.now ≡ length plan.now.jobs }
    requires here { AllHere (S.known store.old).slot }
    ensures status { IfOk result (λ answer. answer.status ≡ status_by fates.now) }
    ensures report { IfOk result (λ answer. answer.text.items
        ≡ report plan.now.jobs fates.now) }
    ensures filled { OnOk result ((q : BuildKey) → (S.known store.new).slot q
        ≡ filled_by plan.now.env q plan.now.jobs fates.now ((S.known store.old).slot q)) }
    ensures begun { BeginsEnv plan.now.env plan.now.jobs fates.now
        (S.known store.old).slot (S.known store.new).slot }
    ensures elsewhere { StaysElsewhere plan.now.env (S.known store.old).slot
        (S.known store.new).slot }
    ensures keeps { Keeps (S.known store.old) (S.known store.new) }
    ensures fails { Fails result (S.known store.old) (S.known store.new) }
{
    fill_env(alloc, &plan.env, plan.jobs.as_slice(), fates, store)?;
    let text = report(alloc, plan, fates)?;
    Ok(Answer {
        status: status_by(fates),
        text: text.into_vec(),
    })
}

fn status_by(fates: &[Fate]) -> Status
    ensures { result ≡ status_by fates.now }
{
    if any_failed(fates) {
        Status::SomeFailed
    } else {
        Status::Done
    }
}

fn any_failed(fates: &[Fate]) -> bool
    ensures { result ≡ list_any is_failed fates.now }
{
    fates.iter().any(|fate| is_failed(fate))
}

fn is_failed(fate: &Fate) -> bool
    ensures { result ≡ is_failed fate.now }
{
    matches!(fate, Fate::Failed(_))
}
