// Partitions that serve, each in a thread.
ghost use Rattle.std.specs.Prelude.{◌≡◌, ◌<◌, ℕ, length, slice_index_or};
ghost use Rattle.std.specs.List.{All};
ghost use Rattle.compile_model.specs.Planned.{ArePlanned};
ghost use Rattle.partition_build.specs.Postings.{HasServed, MayServe, posting_by};
ghost use Rattle.partition_build.specs.declared.posting.Posting.{Posting};

use crate::handing::run;
use crate::posting::Posting;
use compile_model::Plan;
use partition_board::{Board, Take};
use partition_crew::Meant;
use partition_face::Partition;
use std::alloc::Global;
use std::sync::Wait;
use std::thread::{Threads, for_each_mut};
use tree_store::Folder;

// As many threads as a board has posts at most.
const THREADS: usize = 64;

// All serve, each in a thread.
pub(crate) fn serve_all<R: Threads + Wait + Sync, P: Partition, F: Folder + Send>(
    rt: &R,
    alloc: Global,
    board: &Board<Meant<P, F>, F>,
    plan: &Plan,
    postings: &mut Vec<Posting<P, F>>,
)
    requires planned { ArePlanned plan.now.jobs }
    requires may { All (λ p. MayServe board.now.board plan.now
        (posting_by p.post (P.counted p.partition))) postings.old.items }
    ensures length { length postings.new.items ≡ length postings.old.items }
    ensures each { (i : ℕ) (d : Posting P F) → i < length postings.old.items
        → HasServed P.lasting
        (posting_by (slice_index_or postings.old.items i d).post
        (P.counted (slice_index_or postings.old.items i d).partition))
        (posting_by (slice_index_or postings.new.items i d).post
        (P.counted (slice_index_or postings.new.items i d).partition)) }
{
    serve_each(rt, alloc, board, plan, postings.as_mut_slice());
}

// The same, of a slice.
fn serve_each<R: Threads + Wait + Sync, P: Partition, F: Folder + Send>(
    rt: &R,
    alloc: Global,
    board: &Board<Meant<P, F>, F>,
    plan: &Plan,
    postings: &mut [Posting<P, F>],
)
    requires planned { ArePlanned plan.now.jobs }
    requires may { All (λ p. MayServe board.now.board plan.now
        (posting_by p.post (P.counted p.partition))) postings.old }
    ensures length { length postings.new ≡ length postings.old }
    ensures each { (i : ℕ) (d : Posting P F) → i < length postings.old
        → HasServed P.lasting
        (posting_by (slice_index_or postings.old i d).post
        (P.counted (slice_index_or postings.old i d).partition))
        (posting_by (slice_index_or postings.new i d).post
        (P.counted (slice_index_or postings.new i d).partition)) }
{
    for_each_mut(
        rt,
        postings,
        THREADS,
        &|_place: usize, posting: &mut Posting<P, F>|
            requires { ArePlanned plan.now.jobs × MayServe board.now.board plan.now
                (posting_by posting.old.post (P.counted posting.old.partition)) }
            ensures { HasServed P.lasting
                (posting_by posting.old.post (P.counted posting.old.partition))
                (posting_by posting.new.post (P.counted posting.new.partition)) }
        {
            serve(rt, alloc, board, plan, posting);
        },
    );
}

// Serves until each place has a fate, or until there is no memory or a place was given back.
fn serve<R: Wait, P: Partition, F: Folder>(
    rt: &R,
    alloc: Global,
    board: &Board<Meant<P, F>, F>,
    plan: &Plan,
    posting: &mut Posting<P, F>,
)
    requires planned { ArePlanned plan.now.jobs }
    requires may { MayServe board.now.board plan.now
        (posting_by posting.old.post (P.counted posting.old.partition)) }
    ensures served { HasServed P.lasting
        (posting_by posting.old.post (P.counted posting.old.partition))
        (posting_by posting.new.post (P.counted posting.new.partition)) }
{
    let mut needs = Vec::new(alloc);
    for _ in rt.forever() {
        match board.take(rt, &mut posting.post, &mut needs) {
            Take::Over(_) => return,
            Take::NoMemory => return,
            Take::Later(front) => board.wait_past(rt, &mut posting.post, front),
            Take::Kept { .. } => {}
            Take::Skipped { .. } => {}
            Take::Started(lease) => {
                if !run(rt, alloc, board, plan, needs.as_slice(), posting, lease) {
                    return;
                }
            }
        }
    }
    unreachable!()
}
