// Building the jobs of a plan in the folders of a store.
ghost use Rattle.std.specs.Prelude.{◌≡◌, ◌≢◌, [], IfErr, IfOk, OnErr, length, map};
ghost use Rattle.compile_model.specs.Planned.{ArePlanned};
ghost use Rattle.kept_tree.specs.Faults.{KeepsRest};
ghost use Rattle.honest_tree.specs.KeptOf.{AreKeptOf};
ghost use Rattle.tree_store.specs.Slot.{AllHere};
ghost use Rattle.partition_crew.specs.Build.{by_one};
ghost use Rattle.partition_board.specs.Holds.{AreReady};
ghost use Rattle.partition_crew.specs.Station.{nature_by};
ghost use Rattle.mix_compile.specs.Building.{ComesTo, HasBuilt, IsMade, bench_of};
ghost use Rattle.mix_compile.specs.Site.{passage_of, site_of};
ghost use Rattle.mix_compile.specs.Stopping.{IsUnbegun, MakerStops};

use crate::folders::{give_back, take_folders};
use crate::made::{Made, died_text};
use compile_model::Plan;
use mix_answer::Stop;
use mx_base::Shared;
use partition_core::Kept;
use partition_crew::{One, build_one};
use partition_face::{Maker, MakerFault};
use std::alloc::Global;
use tree_store::{Folder, Store};

/// Builds the jobs of a plan by one partition, where there is one, each in the folder of its app.
///
/// # Errors
///
/// Why no build was begun: the tree is as it was, and nothing was run.
pub(crate) fn build<S: Store, M: Maker>(
    alloc: Global,
    plan: &Shared<Plan>,
    kept: Vec<Option<Kept>>,
    store: &mut S,
    maker: &mut M,
) -> Result<Made, Stop>
    requires here { AllHere (S.known store.old).slot }
    requires planned { ArePlanned plan.now.jobs }
    requires kept { AreKeptOf (S.known store.old).slot plan.now kept.items }
    ensures made { IfOk result (λ made. IsMade
        (nature_by (M.P.honest × S.F.tells) M.P.lasting M.P.compile_of) (by_one plan.now kept.items)
        (passage_of (site_of (S.known store.old) (M.known maker.old))
        (site_of (S.known store.new) (M.known maker.new))) made.history.items) }
    ensures comes { IfOk result (λ made. ComesTo
        (nature_by (M.P.honest × S.F.tells) M.P.lasting M.P.compile_of) (by_one plan.now kept.items)
        (passage_of (site_of (S.known store.old) (M.known maker.old))
        (site_of (S.known store.new) (M.known maker.new))) made.history.items made.fates) }
    ensures unbegun { IfErr result (λ stop. IsUnbegun stop
        (passage_of (site_of (S.known store.old) (M.known maker.old))
        (site_of (S.known store.new) (M.known maker.new)))) }
    ensures keeps { KeepsRest (S.known store.old) (S.known store.new) }
{
    if plan.get().jobs.as_slice().is_empty() {
        Ok(Made::of_nothing(alloc))
    } else {
        build_jobs(alloc, plan, kept, store, maker)
    }
}

fn build_jobs<S: Store, M: Maker>(
    alloc: Global,
    plan: &Shared<Plan>,
    kept: Vec<Option<Kept>>,
    store: &mut S,
    maker: &mut M,
) -> Result<Made, Stop>
    requires here { AllHere (S.known store.old).slot }
    requires planned { ArePlanned plan.now.jobs }
    requires some { plan.now.jobs ≢ [] }
    requires kept { AreKeptOf (S.known store.old).slot plan.now kept.items }
    ensures made { IfOk result (λ made. IsMade
        (nature_by (M.P.honest × S.F.tells) M.P.lasting M.P.compile_of) (by_one plan.now kept.items)
        (passage_of (site_of (S.known store.old) (M.known maker.old))
        (site_of (S.known store.new) (M.known maker.new))) made.history.items) }
    ensures comes { IfOk result (λ made. ComesTo
        (nature_by (M.P.honest × S.F.tells) M.P.lasting M.P.compile_of) (by_one plan.now kept.items)
        (passage_of (site_of (S.known store.old) (M.known maker.old))
        (site_of (S.known store.new) (M.known maker.new))) made.history.items made.fates) }
    ensures unbegun { IfErr result (λ stop. IsUnbegun stop
        (passage_of (site_of (S.known store.old) (M.known maker.old))
        (site_of (S.known store.new) (M.known maker.new)))) }
    ensures keeps { KeepsRest (S.known store.old) (S.known store.new) }
{
    // What is said of a death, while there is memory.
    let died = died_text(alloc)?;
    let shared = plan.clone()?;
    let mut folders = take_folders(alloc, store, plan.get())?;
    let built = build_in(alloc, shared, kept, &mut folders, maker);
    give_back(store, folders);
    match built {
        Ok(one) => Ok(Made::of(alloc, one, died)),
        Err(stop) => Err(stop),
    }
}

// Starts a partition, builds by it, and stops it.
fn build_in<F: Folder, M: Maker>(
    alloc: Global,
    plan: Shared<Plan>,
    kept: Vec<Option<Kept>>,
    folders: &mut Vec<F>,
    maker: &mut M,
) -> Result<One, Stop>
    requires planned { ArePlanned plan.jobs }
    requires places { length kept.items ≡ length plan.jobs }
    requires folders { AreReady (by_one plan kept.items) (map F.known folders.old.items) }
    ensures built { IfOk result (λ one. HasBuilt
        (nature_by (M.P.honest × F.tells) M.P.lasting M.P.compile_of) (by_one plan kept.items)
        (bench_of (map F.known folders.old.items) (M.known maker.old))
        (bench_of (map F.known folders.new.items) (M.known maker.new)) one) }
    ensures stopped { IfErr result (λ stop. MakerStops stop (M.known maker.old)
        (M.known maker.new)) }
    ensures idle { OnErr result (((M.known maker.new).runs ≡ (M.known maker.old).runs)
        × ((M.known maker.new).deaths ≡ (M.known maker.old).deaths)) }
    ensures folders { OnErr result (folders.new.items ≡ folders.old.items) }
{
    match maker.start(alloc, 1) {
        Ok(mut partitions) => {
            let one = build_one(alloc, plan, kept, folders, &mut partitions[0]);
            maker.stop(partitions);
            Ok(one)
        }
        Err(MakerFault::Failed) => Err(Stop::Maker),
        Err(MakerFault::OutOfMemory) => Err(Stop::Memory),
    }
}
