// A build by one partition.
ghost use Rattle.std.specs.Prelude.{◌≡◌, ◌+◌, [], None, length, map};
ghost use Rattle.compile_model.specs.Planned.{ArePlanned};
ghost use Rattle.compile_model.specs.Seq.{seq};
ghost use Rattle.partition_core.specs.Counts.{count_below, is_compiled};
ghost use Rattle.partition_core.specs.Histories.{Agrees, Faithful, Sound, replay};
ghost use Rattle.partition_board.specs.Holds.{AreLeft, AreReady};
ghost use Rattle.partition_crew.specs.Build.{CountsOf, IsEnding, IsHistory, StayFor, by_one, fault_unless, inputs_of};
ghost use Rattle.partition_crew.specs.Station.{Ends, IsYoung, nature_by, station_by};

use crate::advancing::advance;
use crate::meant::Meant;
use crate::one::{BuildFault, One};
use compile_model::Plan;
use mx_base::Shared;
use partition_core::{Core, Kept};
use partition_face::Partition;
use std::alloc::Global;
use tree_store::Folder;

/// Builds a plan by one partition, with what was kept of each job or none, and the folder of each job.
pub fn build_one<P: Partition, F: Folder>(
    alloc: Global,
    plan: Shared<Plan>,
    kept: Vec<Option<Kept>>,
    folders: &mut Vec<F>,
    partition: &mut P,
) -> One
    requires planned { ArePlanned plan.jobs }
    requires places { length kept.items ≡ length plan.jobs }
    requires folders { AreReady (by_one plan kept.items) (map F.known folders.old.items) }
    requires young { IsYoung (P.counted partition.old) }
    ensures history { IsHistory (by_one plan kept.items) result }
    ensures faithful { P.honest → F.tells
        → Faithful P.compile_of (by_one plan kept.items) result.history.items }
    // Each fate is the one of compiling job after job.
    ensures each { P.honest → F.tells → Sound P.compile_of (by_one plan kept.items)
        → Agrees result.fates.items (seq P.compile_of plan.jobs) }
    ensures left { AreLeft (by_one plan kept.items) result.fates.items
        (map F.known folders.old.items) (map F.known folders.new.items) }
    // Wherever a stop comes, an honest folder stays honest.
    ensures honest { P.honest → F.tells → Sound P.compile_of (by_one plan kept.items)
        → StayFor P.compile_of (inputs_of P.compile_of plan.jobs)
        (map F.known folders.old.items) (map F.known folders.new.items) }
    ensures counts { CountsOf P.lasting result.history.items (P.counted partition.old)
        (P.counted partition.new) }
    ensures ending { IsEnding result (length plan.jobs) (P.counted partition.new).deaths
        (map F.known folders.new.items) }
    // Where each place has a fate, only what was stale was run.
    ensures runs { P.honest → F.tells → Sound P.compile_of (by_one plan kept.items)
        → result.fault ≡ None → (P.counted partition.new).runs ≡ (P.counted partition.old).runs
        + count_below (is_compiled P.compile_of (by_one plan kept.items)) (length plan.jobs) }
{
    let any = !plan.get().jobs.as_slice().is_empty();
    match Core::begin(alloc, plan, kept, 1) {
        Ok(core) => build_over(alloc, core, folders, partition),
        Err(_) => unbegun(alloc, any),
    }
}

// Where there is no memory to begin, and perhaps nothing to do.
fn unbegun(alloc: Global, any: bool) -> One
    ensures fates { result.fates.items ≡ [] }
    ensures history { result.history.items ≡ [] }
    ensures fault { result.fault ≡ fault_unless any }
{
    One {
        fates: Vec::new(alloc),
        history: Vec::new(alloc),
        fault: if any {
            Some(BuildFault::OutOfMemory)
        } else {
            None
        },
    }
}

// Builds to the end.
fn build_over<P: Partition, F: Folder>(
    alloc: Global,
    mut core: Core<Meant<P, F>>,
    folders: &mut Vec<F>,
    partition: &mut P,
) -> One
    requires new { core.events ≡ [] }
    requires alone { core.opening.partitions ≡ 1 }
    requires planned { ArePlanned core.opening.plan.jobs }
    requires ready { AreReady core.opening (map F.known folders.old.items) }
    requires young { IsYoung (P.counted partition.old) }
    ensures fates { result.fates.items ≡ (replay core.opening result.history.items).fates }
    ensures ends { Ends (nature_by (P.honest × F.tells) P.lasting P.compile_of) core.opening
        (station_by [] (map F.known folders.old.items) (P.counted partition.old))
        (station_by result.history.items (map F.known folders.new.items)
        (P.counted partition.new)) result.fault }
{
    let fault = go_on(alloc, &mut core, folders, partition);
    let (fates, history) = core.close();
    One {
        fates,
        history,
        fault,
    }
}

// Goes on until each place has a fate, or says why it doesn't.
fn go_on<P: Partition, F: Folder>(
    alloc: Global,
    core: &mut Core<Meant<P, F>>,
    folders: &mut Vec<F>,
    partition: &mut P,
) -> Option<BuildFault>
    requires new { core.old.events ≡ [] }
    requires alone { core.old.opening.partitions ≡ 1 }
    requires planned { ArePlanned core.old.opening.plan.jobs }
    requires ready { AreReady core.old.opening (map F.known folders.old.items) }
    requires young { IsYoung (P.counted partition.old) }
    ensures opening { core.new.opening ≡ core.old.opening }
    ensures ends { Ends (nature_by (P.honest × F.tells) P.lasting P.compile_of) core.old.opening
        (station_by [] (map F.known folders.old.items) (P.counted partition.old))
        (station_by core.new.events (map F.known folders.new.items) (P.counted partition.new))
        result }
{
    'rounds: loop {
        match advance(alloc, core, folders, partition) {
            Ok(more) => {
                if !more {
                    return None;
                }
            }
            Err(fault) => return Some(fault),
        }
    }
}
