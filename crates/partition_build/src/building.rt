// A build by several partitions.
ghost use Rattle.std.specs.Prelude.{◌≡◌, ◌≤◌, ◌<◌, ◌^◌, [], Some, IfErr, IfOk, false, length, map, vec_capacity};
ghost use Rattle.std.specs.List.{All, list_all};
ghost use Rattle.compile_model.specs.Planned.{ArePlanned};
ghost use Rattle.compile_model.specs.Seq.{seq};
ghost use Rattle.partition_core.specs.Histories.{Faithful, Sound};
ghost use Rattle.partition_board.specs.Holds.{AreLeft, AreReady};
ghost use Rattle.turn_board.specs.Seats.{fresh_seats};
ghost use Rattle.partition_board.specs.Posts.{IsFreePost, IsIn};
ghost use Rattle.partition_crew.specs.Build.{IsHistory};
ghost use Rattle.partition_crew.specs.Station.{IsYoung};
ghost use Rattle.partition_build.specs.Built.{AreCountsOf, AreStartsOf, GivesFates, HasBegun, IsEndingOf, all_fated, begun_by, by_all, fault_by, has_died, one_of};

use crate::built::Built;
use crate::ending::fault_of;
use crate::posting::Posting;
use crate::seating::{seat, unseat};
use crate::serving::serve_all;
use compile_model::Plan;
use mx_base::Shared;
use partition_board::{Board, BoardRefused, Closed, Post};
use partition_core::Kept;
use partition_crew::Meant;
use partition_face::Partition;
use std::alloc::Global;
use std::sync::Wait;
use std::thread::Threads;
use tree_store::Folder;

/// Builds a plan by 1 to 64 partitions, each in a thread, with what was kept of each job or none, and the folder of
/// each job.
pub fn build<R: Threads + Wait + Sync, P: Partition, F: Folder + Send>(
    rt: &R,
    alloc: Global,
    plan: Shared<Plan>,
    kept: Vec<Option<Kept>>,
    folders: Vec<F>,
    partitions: Vec<P>,
) -> Built<P, F>
    requires planned { ArePlanned plan.jobs }
    requires places { length kept.items ≡ length plan.jobs }
    requires folders { AreReady (by_all plan kept.items (length partitions.items))
        (map F.known folders.items) }
    requires seats { (1 ≤ length partitions.items) × (length partitions.items ≤ 64) }
    requires young { All (λ p. IsYoung (P.counted p)) partitions.items }
    ensures history { IsHistory (by_all plan kept.items (length partitions.items)) (one_of result)
        × HasBegun (by_all plan kept.items (length partitions.items)) (one_of result) }
    ensures faithful { P.honest → F.tells
        → Faithful P.compile_of (by_all plan kept.items (length partitions.items))
        result.history.items }
    // Each fate is the one of compiling job after job.
    ensures sequential { P.honest → F.tells
        → Sound P.compile_of (by_all plan kept.items (length partitions.items))
        → GivesFates (seq P.compile_of plan.jobs) (one_of result) }
    ensures left { AreLeft (by_all plan kept.items (length partitions.items)) result.fates.items
        (map F.known folders.items) (map F.known result.folders.items) }
    ensures counts { AreCountsOf P.lasting result.history.items (map P.counted partitions.items)
        (map P.counted result.partitions.items) }
    // Only what was stale was started, once, and once more for each time that it was given back.
    ensures starts { P.honest → F.tells
        → Sound P.compile_of (by_all plan kept.items (length partitions.items))
        → AreStartsOf P.compile_of (by_all plan kept.items (length partitions.items))
        (one_of result) }
    ensures ending { IsEndingOf (one_of result) (length plan.jobs)
        (map F.known result.folders.items) (map P.counted result.partitions.items) }
{
    let places = plan.get().jobs.as_slice().len();
    match begin(alloc, plan, kept, folders, partitions.len() as u32) {
        Ok(ground) => {
            let Ground {
                plan,
                board,
                mut posts,
                room,
            } = ground;
            let mut partitions = partitions;
            let mut postings = seat(&mut posts, &mut partitions, room);
            let shared = plan.get();
            serve_all(rt, alloc, &board, shared, &mut postings);
            unseat(postings, &mut posts, &mut partitions);
            let Closed {
                fates,
                folders,
                history,
            } = board.close(posts);
            let mut built = Built {
                partitions,
                folders,
                fates,
                history,
                fault: None,
            };
            built.fault = fault_of(places, &built);
            built
        }
        Err(folders) => unbegun(alloc, places, folders, partitions),
    }
}

// What a build stands on while it goes on.
struct Ground<P: Partition, F: Folder> {
    plan: Shared<Plan>,
    board: Board<Meant<P, F>, F>,
    posts: Vec<Post<Meant<P, F>, F>>,
    // For the partitions at their posts.
    room: Vec<Posting<P, F>>,
}

// Takes the memory for a build by so many partitions. Where there is none the folders come back.
fn begin<P: Partition, F: Folder>(
    alloc: Global,
    plan: Shared<Plan>,
    kept: Vec<Option<Kept>>,
    folders: Vec<F>,
    count: u32,
) -> Result<Ground<P, F>, Vec<F>>
    requires planned { ArePlanned plan.jobs }
    requires places { length kept.items ≡ length plan.jobs }
    requires seats { (1 ≤ count) × (count ≤ 64) }
    requires folders { AreReady (by_all plan kept.items count) (map F.known folders.items) }
    ensures plan { IfOk result (λ g. g.plan ≡ plan) }
    ensures board { IfOk result (λ g. g.board.seats ≡ count) }
    ensures posts { IfOk result (λ g. g.posts.items ≡ fresh_seats g.board
        (Some (begun_by (by_all plan kept.items count) folders.items))) }
    ensures free { IfOk result (λ g. All (λ p. IsIn g.board.board p × IsFreePost p)
        g.posts.items) }
    ensures room { IfOk result (λ g. (g.room.items ≡ []) × (count ≤ vec_capacity g.room)) }
    ensures refused { IfErr result (λ back. back.items ≡ folders.items) }
{
    let Ok(shared) = plan.clone() else {
        return Err(folders);
    };
    let Ok(room) = Vec::with_capacity(alloc, count as usize) else {
        return Err(folders);
    };
    match Board::begin(alloc, plan, kept, folders, count) {
        Ok((board, posts)) => Ok(Ground {
            plan: shared,
            board,
            posts,
            room,
        }),
        Err(refused) => {
            room.destroy_empty();
            let BoardRefused { folders } = refused;
            Err(folders)
        }
    }
}

// Where there is no memory to begin.
fn unbegun<P: Partition, F: Folder>(
    alloc: Global,
    places: usize,
    folders: Vec<F>,
    partitions: Vec<P>,
) -> Built<P, F>
    requires few { length partitions.items < 2 ^ 32 }
    ensures same { (result.folders.items ≡ folders.items)
        × (result.partitions.items ≡ partitions.items) }
    ensures nothing { (result.fates.items ≡ []) × (result.history.items ≡ []) }
    ensures fault { result.fault ≡ fault_by (all_fated places []) false
        (list_all has_died (map P.counted partitions.items)) (length partitions.items) }
{
    let mut built = Built {
        partitions,
        folders,
        fates: Vec::new(alloc),
        history: Vec::new(alloc),
        fault: None,
    };
    built.fault = fault_of(places, &built);
    built
}
