// One build, event by event.
ghost use Rattle.std.specs.Prelude.{IfOk};
ghost use Rattle.compile_model.specs.Echo.{echo_of, echo_failed_is_bare, echo_files_in_order, echo_nothing_is_empty};
ghost use Rattle.compile_model.specs.Planned.{ArePlanned};

use compile_model::{Meaning, Outcome, Plan};
use mx_base::{Bytes, Files, Shared};
use partition_core::{Core, Event, Next};
use std::alloc::{AllocError, Global};
use std::collections::VecDeque;

/// How many partitions there are.
const PARTITIONS: u32 = 64;

/// Partitions whose outcomes may be any.
pub(crate) struct Anything;

impl Meaning for Anything {
    ghost compile_of = { echo_of };

    ghost honest = { ⊥ };

    ghost files_in_order = { echo_files_in_order };

    ghost failed_is_bare = { echo_failed_is_bare };

    ghost nothing_is_empty = { echo_nothing_is_empty };
}

/// What each place is built as.
pub(crate) fn empty_outcome(alloc: Global) -> Result<Shared<Outcome>, AllocError> {
    let outcome = Outcome::of(alloc, 0, Bytes::new(alloc), Files::new(alloc))?;
    Shared::new(alloc, outcome)
}

/// What the partitions do.
#[derive(Drop)]
struct Crew {
    free: Vec<u32>,
    /// The places that are running, each with its partition, those begun first in front.
    running: VecDeque<(u32, u32)>,
}

/// A build of all places: free partitions begin what there is to begin, and then the place that was begun first is
/// finished.
pub(crate) fn built(
    alloc: Global,
    plan: Shared<Plan>,
    outcome: &Shared<Outcome>,
) -> Result<Core<Anything>, AllocError>
    requires { ArePlanned plan.jobs }
{
    let mut core = begun(alloc, plan)?;
    let mut crew = Crew {
        free: (1..=PARTITIONS).rev().collect(alloc)?,
        running: VecDeque::new(alloc),
    };
    for _place in 0..core.plan().jobs.as_slice().len() {
        start(&mut core, &mut crew)?;
        finish(&mut core, &mut crew, outcome)?;
    }
    Ok(core)
}

fn begun(alloc: Global, plan: Shared<Plan>) -> Result<Core<Anything>, AllocError>
    requires { ArePlanned plan.jobs }
{
    let kept = plan
        .get()
        .jobs
        .as_slice()
        .iter()
        .map(|_job| None)
        .collect(alloc)?;
    Core::begin(alloc, plan, kept, PARTITIONS)
}

/// Free partitions begin places, as long as there are places to begin.
fn start(core: &mut Core<Anything>, crew: &mut Crew) -> Result<(), AllocError> {
    for _free in 0..crew.free.len() {
        let Some(by) = crew.free.pop() else {
            return Ok(());
        };
        let Some(place) = begin_next(core, by) else {
            return Ok(crew.free.push(by)?);
        };
        crew.running.push_back((place, by))?;
    }
    Ok(())
}

/// The place that a partition begins, if there is one.
fn begin_next(core: &mut Core<Anything>, by: u32) -> Option<u32> {
    if !core.is_free(by) {
        return None;
    }
    let Next::Start(place) = core.next(by) else {
        return None;
    };
    let _ = core.step(Event::Start { place, by }, None);
    Some(place)
}

/// Finishes the place that was begun first.
fn finish(
    core: &mut Core<Anything>,
    crew: &mut Crew,
    outcome: &Shared<Outcome>,
) -> Result<(), AllocError> {
    let Some((place, by)) = crew.running.pop_front() else {
        return Ok(());
    };
    let event = Event::Finish {
        place,
        by,
        outcome: outcome.clone()?,
    };
    let _ = core.step(event, Some(outcome.clone()?));
    Ok(crew.free.push(by)?)
}
