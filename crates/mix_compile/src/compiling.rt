// Bringing a build tree up to date.
ghost use Rattle.std.specs.Prelude.{◌≡◌, [], IfErr, IfOk, length};
ghost use Rattle.mx_base.specs.BuildName.{HasBuildName};
ghost use Rattle.compile_model.specs.Planned.{ArePlanned};
ghost use Rattle.tree_store.specs.Slot.{AllHere};
ghost use Rattle.build_plan.specs.Plan.{Build, build_of};
ghost use Rattle.kept_tree.specs.Faults.{KeepsRest};
ghost use Rattle.mix_answer.specs.Answer.{reply_in, stopped};
ghost use Rattle.mix_answer.specs.Says.{Ends};
ghost use Rattle.partition_crew.specs.Station.{nature_by};
ghost use Rattle.mix_compile.specs.Asked.{asked_of, came_to};
ghost use Rattle.mix_compile.specs.Compiles.{Compiles, Works};
ghost use Rattle.mix_compile.specs.Finishing.{Finishes, finish_of};
ghost use Rattle.mix_compile.specs.Site.{passage_of, site_of};

use crate::building::build;
use crate::ended::{Compiled, Ended};
use crate::made::Made;
use crate::settling::settle;
use crate::tidying::tidy;
use build_plan::plan;
use compile_model::{Fate, Plan};
use mix_answer::{Answer, Stop, refuse, say};
use mx_base::{AppName, Shared, Sink};
use partition_core::Event;
use partition_face::Maker;
use std::alloc::Global;
use tree_store::Store;

/// Brings the builds of an environment for a target up to date, and writes the report, and with `trace` the trace.
///
/// Status 0 and 1 say that each job has come to its end, 1 that some failed. Where the partitions are honest, the
/// folders tell what they hold and the tree was honest, tree, report and status are then those of compiling one job
/// after another from an empty tree.
pub fn compile<S: Store, M: Maker, K: Sink>(
    alloc: Global,
    env: &AppName,
    target: &AppName,
    trace: bool,
    store: &mut S,
    maker: &mut M,
    out: &mut K,
) -> Compiled
    requires here { AllHere (S.known store.old).slot }
    requires named { HasBuildName env.now target.now }
    ensures ends { Ends (λ reply. Compiles
        (nature_by (M.P.honest × S.F.tells) M.P.lasting M.P.compile_of)
        (asked_of (build_of env.now target.now) trace)
        (passage_of (site_of (S.known store.old) (M.known maker.old))
        (site_of (S.known store.new) (M.known maker.new)))
        (came_to reply result.history.items)) (K.known out.old) (K.known out.new) result.status }
    ensures keeps { KeepsRest (S.known store.old) (S.known store.new) }
{
    let ended = build_tree(alloc, env, target, trace, store, maker);
    let status = say(out, &ended.answer);
    Compiled {
        status,
        history: ended.history,
    }
}

/// The same before anything is written: what the compile came to.
pub fn build_tree<S: Store, M: Maker>(
    alloc: Global,
    env: &AppName,
    target: &AppName,
    trace: bool,
    store: &mut S,
    maker: &mut M,
) -> Ended
    requires here { AllHere (S.known store.old).slot }
    requires named { HasBuildName env.now target.now }
    ensures ends { Compiles (nature_by (M.P.honest × S.F.tells) M.P.lasting M.P.compile_of)
        (asked_of (build_of env.now target.now) trace)
        (passage_of (site_of (S.known store.old) (M.known maker.old))
        (site_of (S.known store.new) (M.known maker.new)))
        (came_to (reply_in result.answer) result.history.items) }
    ensures keeps { KeepsRest (S.known store.old) (S.known store.new) }
{
    match plan(alloc, store, env, target) {
        Ok(plan) => build_planned(alloc, plan, trace, store, maker),
        Err(error) => Ended {
            answer: refuse(alloc, &error),
            history: Vec::new(alloc),
        },
    }
}

/// The same for a plan that stands: what a compile of it comes to.
pub fn build_planned<S: Store, M: Maker>(
    alloc: Global,
    plan: Plan,
    trace: bool,
    store: &mut S,
    maker: &mut M,
) -> Ended
    requires here { AllHere (S.known store.old).slot }
    requires planned { ArePlanned plan.jobs }
    ensures works { (build : Build) → Works
        (nature_by (M.P.honest × S.F.tells) M.P.lasting M.P.compile_of) (asked_of build trace) plan
        (passage_of (site_of (S.known store.old) (M.known maker.old))
        (site_of (S.known store.new) (M.known maker.new)))
        (came_to (reply_in result.answer) result.history.items) }
    ensures keeps { KeepsRest (S.known store.old) (S.known store.new) }
{
    match work(alloc, plan, trace, store, maker) {
        Ok(ended) => ended,
        Err(stop) => Ended {
            answer: Err(stop),
            history: Vec::new(alloc),
        },
    }
}

// The same, or why no build was begun.
fn work<S: Store, M: Maker>(
    alloc: Global,
    plan: Plan,
    trace: bool,
    store: &mut S,
    maker: &mut M,
) -> Result<Ended, Stop>
    requires here { AllHere (S.known store.old).slot }
    requires planned { ArePlanned plan.jobs }
    ensures ended { IfOk result (λ ended. (build : Build) → Works
        (nature_by (M.P.honest × S.F.tells) M.P.lasting M.P.compile_of) (asked_of build trace) plan
        (passage_of (site_of (S.known store.old) (M.known maker.old))
        (site_of (S.known store.new) (M.known maker.new)))
        (came_to (reply_in ended.answer) ended.history.items)) }
    ensures stopped { IfErr result (λ stop. (build : Build) → Works
        (nature_by (M.P.honest × S.F.tells) M.P.lasting M.P.compile_of) (asked_of build trace) plan
        (passage_of (site_of (S.known store.old) (M.known maker.old))
        (site_of (S.known store.new) (M.known maker.new))) (came_to (stopped stop) [])) }
    ensures keeps { KeepsRest (S.known store.old) (S.known store.new) }
{
    let kept = tidy(alloc, store, &plan)?;
    let plan = Shared::new(alloc, plan)?;
    let made = build(alloc, &plan, kept, store, maker)?;
    Ok(finish(alloc, plan.get(), made, trace, store))
}

// What is done after a build.
fn finish<S: Store>(alloc: Global, plan: &Plan, made: Made, trace: bool, store: &mut S) -> Ended
    requires here { AllHere (S.known store.old).slot }
    requires planned { ArePlanned plan.now.jobs }
    requires places { IfOk made.fates (λ fates. length fates.items ≡ length plan.now.jobs) }
    ensures finished { Finishes plan.now made.fates
        (finish_of trace made.history.items (S.known store.old) (S.known store.new)) result.answer }
    ensures history { result.history.items ≡ made.history.items }
    ensures keeps { KeepsRest (S.known store.old) (S.known store.new) }
{
    let Made { fates, history } = made;
    let answer = answer_by(alloc, plan, fates, &history, trace, store);
    Ended { answer, history }
}

// Where each place has its fate the tree is settled; else the build has its answer.
fn answer_by<S: Store>(
    alloc: Global,
    plan: &Plan,
    fates: Result<Vec<Fate>, Result<Answer, Stop>>,
    history: &[Event],
    trace: bool,
    store: &mut S,
) -> Result<Answer, Stop>
    requires here { AllHere (S.known store.old).slot }
    requires planned { ArePlanned plan.now.jobs }
    requires places { IfOk fates (λ fates. length fates.items ≡ length plan.now.jobs) }
    ensures finished { Finishes plan.now fates
        (finish_of trace history.now (S.known store.old) (S.known store.new)) result }
    ensures keeps { KeepsRest (S.known store.old) (S.known store.new) }
{
    match fates {
        Ok(fates) => settle(alloc, plan, &fates, history, trace, store),
        Err(answer) => answer,
    }
}
