// One step of a build by one partition.
ghost use Rattle.std.specs.Prelude.{◌≡◌, ◌≢◌, ◌<◌, ◌≤◌, [], ◌∷◌, ◌++◌, ℕ, true, None, Some, IfOk, IfSome, IsTrue, length, map, slice_get};
ghost use Rattle.std.specs.Option.{option_copied};
ghost use Rattle.compile_model.specs.Planned.{ArePlanned, IsNamed};
ghost use Rattle.build_manifest.specs.MarkOf.{AppsDiffer};
ghost use Rattle.partition_core.specs.State.{built_at, needs_at, outcomes_now, standing};
ghost use Rattle.partition_core.specs.Steps.{Holds, IsLegal};
ghost use Rattle.partition_core.specs.Histories.{IsFaithful};
ghost use Rattle.partition_core.specs.Refusals.{outcome_of};
ghost use Rattle.partition_core.specs.Story.{state_now, with_event};
ghost use Rattle.partition_core.specs.declared.event.Standing.{Standing};
ghost use Rattle.partition_face.specs.Counts.{CanRun};
ghost use Rattle.partition_crew.specs.Station.{IsRight, Advances, WorksIn, event_by, nature_by, station_by, told_by};
ghost use Rattle.partition_crew.specs.Work.{IsCounted, given_by};

use crate::compiling::compile_into;
use crate::meant::Meant;
use crate::one::BuildFault;
use crate::worked::Worked;
use compile_model::{Fate, Job, Meaning, Outcome, Twin};
use mx_base::Shared;
use partition_core::{BackCause, Core, Event, Next};
use partition_face::Partition;
use std::alloc::{AllocError, Global};
use tree_store::Folder;

// The number of the partition.
const ONE: u32 = 1;

// Does what comes next, and tells whether there was anything to do.
pub(crate) fn advance<P: Partition, F: Folder>(
    alloc: Global,
    core: &mut Core<Meant<P, F>>,
    folders: &mut Vec<F>,
    partition: &mut P,
) -> Result<bool, BuildFault>
    requires idle { standing (state_now core.old).standings 1 ≡ Some Standing.Idle }
    requires alone { core.old.opening.partitions ≡ 1 }
    requires places { length folders.old.items ≡ length core.old.opening.plan.jobs }
    requires able { CanRun (P.counted partition.old) }
    ensures opening { core.new.opening ≡ core.old.opening }
    ensures advances { Advances (nature_by (P.honest × F.tells) P.lasting P.compile_of)
        core.old.opening
        (station_by core.old.events (map F.known folders.old.items) (P.counted partition.old))
        (station_by core.new.events (map F.known folders.new.items) (P.counted partition.new))
        result }
{
    match core.next(ONE) {
        Next::Keep(place) => {
            make(core, Event::Keep { place, by: ONE }, None);
            Ok(true)
        }
        Next::Skip { place, need } => {
            make(
                core,
                Event::Skip {
                    place,
                    need,
                    by: ONE,
                },
                None,
            );
            Ok(true)
        }
        Next::Start(place) => start(alloc, core, place, folders, partition),
        Next::Over => Ok(false),
        Next::Later => unreachable!(),
    }
}

// Starts a place, works on it and tells what came of it.
fn start<P: Partition, F: Folder>(
    alloc: Global,
    core: &mut Core<Meant<P, F>>,
    place: u32,
    folders: &mut Vec<F>,
    partition: &mut P,
) -> Result<bool, BuildFault>
    requires legal { IsLegal core.old.opening (state_now core.old) (Event.Start place 1) }
    requires places { length folders.old.items ≡ length core.old.opening.plan.jobs }
    requires able { CanRun (P.counted partition.old) }
    ensures opening { core.new.opening ≡ core.old.opening }
    ensures advances { Advances (nature_by (P.honest × F.tells) P.lasting P.compile_of)
        core.old.opening
        (station_by core.old.events (map F.known folders.old.items) (P.counted partition.old))
        (station_by core.new.events (map F.known folders.new.items) (P.counted partition.new))
        result }
{
    let needs = outcomes(alloc, core, place)?;
    make(core, Event::Start { place, by: ONE }, None);
    let job = &core.plan().jobs.as_slice()[place as usize];
    let worked = compile_at(alloc, partition, job, needs.as_slice(), folders, place);
    tell(core, place, worked)
}

// The outcomes of those needs of a place that are built.
fn outcomes<M: Meaning>(
    alloc: Global,
    core: &Core<M>,
    place: u32,
) -> Result<Vec<Shared<Outcome>>, AllocError>
    requires { place < length core.now.opening.plan.jobs }
    ensures { IfOk result (λ outcomes. outcomes.items
        ≡ outcomes_now (state_now core.now).fates (needs_at core.now.opening place)) }
{
    let job = &core.plan().jobs.as_slice()[place as usize];
    let mut outcomes = Vec::new(alloc);
    for need in job.needs.as_slice() {
        if let Some(outcome) = built(core, *need) {
            outcomes.push(outcome.clone()?)?;
        }
    }
    Ok(outcomes)
}

// The outcome of a place that is built.
fn built<M: Meaning>(core: &Core<M>, place: u32) -> Option<&Shared<Outcome>>
    ensures { option_copied result ≡ built_at (state_now core.now).fates place }
{
    match core.fate(place)? {
        Fate::Built(outcome) => Some(outcome),
        _ => None,
    }
}

// Compiles a job into the folder of its place.
fn compile_at<P: Partition, F: Folder>(
    alloc: Global,
    partition: &mut P,
    job: &Job,
    needs: &[Shared<Outcome>],
    folders: &mut Vec<F>,
    place: u32,
) -> Worked
    requires named { IsNamed job.now }
    requires apart { AppsDiffer job.now.need_apps }
    requires needs { length needs.now ≡ length job.now.needs }
    requires able { CanRun (P.counted partition.old) }
    requires within { place < length folders.old.items }
    ensures works { WorksIn (nature_by (P.honest × F.tells) P.lasting P.compile_of)
        (given_by job.now needs.now) result place (map F.known folders.old.items)
        (map F.known folders.new.items) }
    ensures counts { IsCounted P.lasting (P.counted partition.old) (P.counted partition.new)
        result }
{
    let folder = &mut folders[place as usize];
    Worked::of(compile_into(alloc, partition, job, needs, folder))
}

// Tells what came of a place that the partition runs, and whether the build goes on.
fn tell<M: Meaning>(core: &mut Core<M>, place: u32, worked: Worked) -> Result<bool, BuildFault>
    requires holds { Holds (state_now core.old) place 1 }
    requires right { IsRight worked }
    requires meant { M.honest → IsFaithful M.compile_of core.old.opening (state_now core.old)
        (event_by place worked) }
    ensures told { core.new ≡ with_event core.old (event_by place worked) }
    ensures answer { result ≡ told_by worked }
{
    match worked {
        Worked::Finished(twin) => {
            let Twin { event, fate } = twin;
            let finish = Event::Finish {
                place,
                by: ONE,
                outcome: event,
            };
            make(core, finish, Some(fate));
            Ok(true)
        }
        Worked::Failed(twin) => {
            let Twin { event, fate } = twin;
            let fail = Event::Fail {
                place,
                by: ONE,
                outcome: event,
            };
            make(core, fail, Some(fate));
            Ok(true)
        }
        Worked::Died => {
            give_back(core, place, BackCause::Died);
            Err(BuildFault::NoPartitionLeft { died: 1 })
        }
        Worked::TreeFault => {
            give_back(core, place, BackCause::Tree);
            Err(BuildFault::TreeFault)
        }
        Worked::NoMemory => {
            give_back(core, place, BackCause::Memory);
            Err(BuildFault::OutOfMemory)
        }
    }
}

// Gives back a place that the partition runs.
fn give_back<M: Meaning>(core: &mut Core<M>, place: u32, cause: BackCause)
    requires { Holds (state_now core.old) place 1 }
    ensures { core.new ≡ with_event core.old (Event.Back place 1 cause) }
{
    make(
        core,
        Event::Back {
            place,
            by: ONE,
            cause,
        },
        None,
    );
}

// Makes an event that is legal.
fn make<M: Meaning>(core: &mut Core<M>, event: Event, fate: Option<Shared<Outcome>>)
    requires legal { IsLegal core.old.opening (state_now core.old) event }
    requires fate { fate ≡ outcome_of event }
    requires meant { M.honest
        → IsFaithful M.compile_of core.old.opening (state_now core.old) event }
    ensures { core.new ≡ with_event core.old event }
{
    core.step(event, fate).unwrap();
}
