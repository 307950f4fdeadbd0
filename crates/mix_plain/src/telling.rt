// The command `deps.stale`.
ghost use Rattle.std.specs.Prelude.{◌≡◌, ◌++◌, IfOk, OnOk, flat_map, length, map, option_map};
ghost use Rattle.mx_base.specs.BuildName.{HasBuildName};
ghost use Rattle.build_plan.specs.Plan.{build_of};
ghost use Rattle.compile_model.specs.Planned.{ArePlanned};
ghost use Rattle.mix_answer.specs.declared.status.Status.TheVariants.{Done};
ghost use Rattle.mix_answer.specs.Answer.{reply_in};
ghost use Rattle.mix_report.specs.App.{app_at};
ghost use Rattle.tree_store.specs.Slot.{AllHere};
ghost use Rattle.mix_plain.specs.Tells.{ListsStale, SaysStale, Tells};
ghost use Rattle.mix_plain.specs.Texts.{stale_line, stale_text, why_text};

use build_manifest::Mark;
use build_plan::plan;
use compile_model::{Job, Plan};
use kept_tree::read_kept;
use mix_answer::{Answer, Status, Stop, refuse};
use mx_base::AppName;
use staleness::{Kept, Why, stale_report};
use std::alloc::{AllocError, Global};
use tree_store::Store;

/// Tells what of a build would be compiled again, one a line with the first reason, or that nothing is stale. It only
/// reads.
pub fn stale<S: Store>(
    alloc: Global,
    env: &AppName,
    target: &AppName,
    store: &mut S,
) -> Result<Answer, Stop>
    requires here { AllHere (S.known store.old).slot }
    requires named { HasBuildName env.now target.now }
    ensures { Tells (build_of env.now target.now) (SaysStale (S.known store.old))
        (S.known store.old) (S.known store.new) (reply_in result) }
{
    match plan(alloc, store, env, target) {
        Ok(plan) => {
            let kept = read_kept(alloc, store, &plan)?;
            Ok(told(alloc, &plan, kept)?)
        }
        Err(error) => refuse(alloc, &error),
    }
}

// What is stale of a plan, by what is kept of its jobs.
fn told(alloc: Global, plan: &Plan, kept: Vec<Option<Kept>>) -> Result<Answer, AllocError>
    requires planned { ArePlanned plan.now.jobs }
    requires each { length kept.items ≡ length plan.now.jobs }
    ensures status { IfOk result (λ answer. answer.status ≡ Done) }
    ensures says { IfOk result (λ answer. ListsStale plan.now.jobs kept.items answer.text.items) }
{
    let marks = marks_of(alloc, kept)?;
    let report = stale_report(alloc, plan, marks.as_slice())?;
    Ok(Answer {
        status: Status::Done,
        text: stale_text(alloc, plan.jobs.as_slice(), report.as_slice())?,
    })
}

fn marks_of(alloc: Global, kept: Vec<Option<Kept>>) -> Result<Vec<Option<Mark>>, AllocError>
    ensures { IfOk result (λ marks. marks.items
        ≡ map (option_map (λ entry. entry.mark)) kept.items) }
{
    let mut marks = Vec::with_capacity(alloc, kept.len())?;
    for entry in kept {
        marks.push(entry.map(|kept| kept.mark))?;
    }
    Ok(marks)
}

fn stale_text(alloc: Global, jobs: &[Job], report: &[(u32, Why)]) -> Result<Vec<u8>, AllocError>
    ensures { IfOk result (λ text. text.items ≡ stale_text jobs.now report.now) }
{
    if report.is_empty() {
        Vec::from_slice(alloc, b"nothing is stale\n")
    } else {
        stale_lines(alloc, jobs, report)
    }
}

fn stale_lines(alloc: Global, jobs: &[Job], report: &[(u32, Why)]) -> Result<Vec<u8>, AllocError>
    ensures { IfOk result (λ text. text.items ≡ flat_map (stale_line jobs.now) report.now) }
{
    let mut text = Vec::new(alloc);
    for (place, why) in report {
        push_stale(&mut text, jobs, *place, why)?;
    }
    Ok(text)
}

fn push_stale(text: &mut Vec<u8>, jobs: &[Job], place: u32, why: &Why) -> Result<(), AllocError>
    ensures { OnOk result (text.new.items ≡ text.old.items ++ stale_line jobs.now (place, why.now)) }
{
    text.extend_from_slice(app_at(jobs, place))?;
    text.extend_from_slice(b": ")?;
    push_why(text, why)?;
    text.extend_from_slice(b"\n")
}

fn app_at(jobs: &[Job], place: u32) -> &[u8]
    ensures { result.now ≡ app_at jobs.now place }
{
    match jobs.get(place as usize) {
        Some(job) => job.app.as_str().as_bytes(),
        None => b"",
    }
}

fn push_why(text: &mut Vec<u8>, why: &Why) -> Result<(), AllocError>
    ensures { OnOk result (text.new.items ≡ text.old.items ++ why_text why.now) }
{
    match why {
        Why::NoMark => text.extend_from_slice(b"no mark"),
        Why::Options => text.extend_from_slice(b"options"),
        Why::Sources(path) => {
            text.extend_from_slice(b"source ")?;
            text.extend_from_slice(path.as_str().as_bytes())
        }
        Why::Need(app) => {
            text.extend_from_slice(b"need ")?;
            text.extend_from_slice(app.as_str().as_bytes())
        }
    }
}
