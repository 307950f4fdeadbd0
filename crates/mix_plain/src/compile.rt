// Compiling one after another from an empty environment.
ghost use Rattle.std.specs.Prelude.{◌≡◌, IfOk, length};
ghost use Rattle.mx_base.specs.BuildName.{HasBuildName};
ghost use Rattle.compile_model.specs.Planned.{ArePlanned};
ghost use Rattle.tree_store.specs.Slot.{AllHere};
ghost use Rattle.build_plan.specs.Plan.{build_of};
ghost use Rattle.kept_tree.specs.Faults.{KeepsRest};
ghost use Rattle.mix_answer.specs.Answer.{reply_in};
ghost use Rattle.mix_report.specs.Report.{report};
ghost use Rattle.mix_compile.specs.Right.{status_by};
ghost use Rattle.mix_plain.specs.Compile.{Compiles, Works};
ghost use Rattle.mix_plain.specs.Site.{passage_of, site_of};

use crate::fill::fill_env;
use build_plan::plan;
use compile_model::{Compiler, Fate, Plan, SeqFault, seq_build};
use kept_tree::clear_apart;
use mix_answer::{Answer, Status, Stop, refuse};
use mix_compile::{died_text, status_by};
use mix_report::report;
use mx_base::AppName;
use std::alloc::{AllocError, Global};
use tree_store::Store;

/// Compiles the dependencies of a project one after another from an empty environment: what it comes to is the report.
pub fn compile_in_turn<S: Store, C: Compiler>(
    alloc: Global,
    env: &AppName,
    target: &AppName,
    store: &mut S,
    compiler: &mut C,
) -> Result<Answer, Stop>
    requires here { AllHere (S.known store.old).slot }
    requires named { HasBuildName env.now target.now }
    ensures ends { Compiles C.compile_of (build_of env.now target.now)
        (passage_of (site_of (S.known store.old) (C.deaths compiler.old))
        (site_of (S.known store.new) (C.deaths compiler.new))) (reply_in result) }
    ensures keeps { KeepsRest (S.known store.old) (S.known store.new) }
{
    match plan(alloc, store, env, target) {
        Ok(plan) => build(alloc, &plan, store, compiler),
        Err(error) => refuse(alloc, &error),
    }
}

// Builds the jobs of a plan from an empty environment.
fn build<S: Store, C: Compiler>(
    alloc: Global,
    plan: &Plan,
    store: &mut S,
    compiler: &mut C,
) -> Result<Answer, Stop>
    requires here { AllHere (S.known store.old).slot }
    requires planned { ArePlanned plan.now.jobs }
    ensures works { Works C.compile_of plan.now
        (passage_of (site_of (S.known store.old) (C.deaths compiler.old))
        (site_of (S.known store.new) (C.deaths compiler.new))) (reply_in result) }
    ensures keeps { KeepsRest (S.known store.old) (S.known store.new) }
{
    // Made before the compiler may die, so that want of memory never stands for a death.
    let died = died_text(alloc)?;
    clear_apart(alloc, store, &plan.env, &[])?;
    match seq_build(alloc, plan, compiler) {
        Ok(fates) => {
            fill_env(alloc, plan, fates.as_slice(), store)?;
            Ok(told(alloc, plan, fates.as_slice())?)
        }
        Err(SeqFault::Died { .. }) => Ok(Answer {
            status: Status::Died,
            text: died,
        }),
        Err(SeqFault::OutOfMemory) => Err(Stop::Memory),
    }
}

// The report of what became of each job, and the status that goes with it.
fn told(alloc: Global, plan: &Plan, fates: &[Fate]) -> Result<Answer, AllocError>
    requires { length fates.now ≡ length plan.now.jobs }
    ensures status { IfOk result (λ answer. answer.status ≡ status_by fates.now) }
    ensures text { IfOk result (λ answer. answer.text.items ≡ report plan.now.jobs fates.now) }
{
    let text = report(alloc, plan, fates)?;
    Ok(Answer {
        status: status_by(fates),
        text: text.into_vec(),
    })
}
