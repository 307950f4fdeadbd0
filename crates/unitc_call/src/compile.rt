// Compiling a task.
ghost use Rattle.std.specs.Prelude.{◌≡◌, ◌≤◌, IfErr, IfOk, IsFalse, List, length};
ghost use Rattle.mx_base.specs.Layout.{is_in_build};
ghost use Rattle.compile_model.specs.Content.{content_of, needs_of};
ghost use Rattle.compile_model.specs.declared.outcome.Outcome.{Outcome};
ghost use Rattle.tree_store.specs.Slot.{AllHere};
ghost use Rattle.kept_tree.specs.Faults.{KeepsRest, ReadsBuilds};
ghost use Rattle.unit_compile.specs.Units.{unit_meaning};
ghost use Rattle.unitc_call.specs.Compile.{ChangesOnly, IsCompiled, reply_of};
ghost use Rattle.unitc_call.specs.Ends.{Stops};
ghost use Rattle.unitc_call.specs.Reading.{IsReadFrom, content_with, own_build};

use crate::fill::fill;
use crate::needs::read_needs;
use crate::sources::read_sources;
use crate::words::Task;
use compile_model::{How, Input, Job, Origin, Outcome, Places};
use kept_tree::{KeptFault, clear_app};
use mx_base::{Bytes, Files, Shared, Text, Variables, listing_of};
use std::alloc::{AllocError, Global};
use tree_store::Store;
use unit_compile::compile_unit;

/// A status, and the text that goes with it.
#[derive(Drop)]
pub(crate) struct Reply {
    pub(crate) status: u32,
    pub(crate) text: Bytes,
}

/// Compiles a task: empties the build of its app, and puts the files into it that its sources and its needs give.
#[tactic(auto, using(crate::proofs::LawLemmas::meaning_few))]
pub(crate) fn compile<S: Store>(
    alloc: Global,
    task: &Task,
    store: &mut S,
) -> Result<Reply, KeptFault>
    requires here { AllHere (S.known store.old).slot }
    requires outside { IsFalse (is_in_build task.now.src) }
    ensures compiled { IfOk result (λ reply. IsCompiled task.now (S.known store.old)
        (S.known store.new) (reply_of reply)) }
    ensures few { IfOk result (λ reply. reply.status ≤ 1) }
    ensures stops { IfErr result (λ fault. Stops fault (S.known store.old) (S.known store.new)) }
    ensures stands { ChangesOnly (own_build task.now) (S.known store.old).slot
        (S.known store.new).slot }
    ensures keeps { KeepsRest (S.known store.old) (S.known store.new) }
{
    clear_app(alloc, store, &task.env, &task.app)?;
    let outcome = outcome(alloc, task, store)?;
    fill(alloc, store, &task.env, &task.app, &outcome.files)?;
    let Outcome { status, text, .. } = outcome;
    Ok(Reply { status, text })
}

// What the sources of a task and the files of its needs give.
fn outcome<S: Store>(alloc: Global, task: &Task, store: &mut S) -> Result<Outcome, KeptFault>
    requires here { AllHere (S.known store.old).slot }
    requires outside { IsFalse (is_in_build task.now.src) }
    ensures read { IfOk result (IsReadFrom task.now (S.known store.old)) }
    ensures reads { ReadsBuilds result (S.known store.old) (S.known store.new) }
{
    let sources = read_sources(alloc, store, &task.src)?;
    let needs = read_needs(alloc, store, &task.env, task.needs.as_slice())?;
    Ok(compiled(alloc, task, sources, &needs)?)
}

fn compiled(
    alloc: Global,
    task: &Task,
    sources: Files,
    needs: &[Shared<Outcome>],
) -> Result<Outcome, AllocError>
    requires { length needs.now ≡ length task.now.needs }
    ensures { IfOk result (λ outcome. outcome
        ≡ unit_meaning (content_with task.now sources (needs_of task.now.needs needs.now))) }
{
    let job = job_of(alloc, task, sources)?;
    compile_unit(alloc, &Input { job: &job, needs })
}

// The task as a job of no plan: only what a compiler looks at is said of it.
#[tactic(auto, using(mx_base::proofs::ListingLemmas::apart_from_order))]
fn job_of(alloc: Global, task: &Task, sources: Files) -> Result<Job, AllocError>
    ensures content { IfOk result (λ job. (outcomes : List Outcome) → content_of job outcomes
        ≡ content_with task.now sources (needs_of task.now.needs outcomes)) }
    ensures needs { IfOk result (λ job. length job.needs ≡ length task.now.needs) }
    ensures apps { IfOk result (λ job. job.need_apps ≡ task.now.needs) }
{
    let rows = listing_of(alloc, sources.as_slice())?;
    let places = vec![in alloc; 0; task.needs.as_slice().len()]?;
    Ok(Job {
        app: task.app.clone()?,
        version: Text::from_vec(Vec::new(alloc)),
        origin: Origin::Path,
        options: Bytes::new(alloc),
        how: How::Unit,
        system_env: Variables::new(alloc),
        dir: task.src.clone()?,
        sources,
        rows,
        needs: Places::from_vec(places),
        need_apps: task.needs.clone()?,
    })
}
