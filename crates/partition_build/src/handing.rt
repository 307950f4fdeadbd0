// Working on a lease and handing it in.
ghost use Rattle.std.specs.Prelude.{◌≡◌, ◌∷◌, [], ℕ, IsTrue};
ghost use Rattle.compile_model.specs.Planned.{ArePlanned};
ghost use Rattle.partition_face.specs.Counts.{CanRun};
ghost use Rattle.partition_board.specs.Posts.{Adds, HoldsPlace, IsFreePost, IsIn};
ghost use Rattle.partition_build.specs.Postings.{HasRun, IsMeantAt, IsPosted, IsTaken, MayHandIn, ended_by, goes_on, posting_by};

use crate::posting::Posting;
use compile_model::{Outcome, Plan};
use mx_base::Shared;
use partition_board::{Board, Lease, Post};
use partition_core::BackCause;
use partition_crew::{Meant, Worked, work};
use partition_face::Partition;
use std::alloc::Global;
use std::sync::Wait;
use tree_store::Folder;

// Works on a lease and hands it in, and tells whether the partition goes on.
pub(crate) fn run<R: Wait, P: Partition, F: Folder>(
    rt: &R,
    alloc: Global,
    board: &Board<Meant<P, F>, F>,
    plan: &Plan,
    needs: &[Shared<Outcome>],
    posting: &mut Posting<P, F>,
    mut lease: Lease<F>,
) -> bool
    requires planned { ArePlanned plan.now.jobs }
    requires posted { IsPosted board.now.board plan.now posting.old.post }
    requires taken { IsTaken F.known posting.old.post needs.now lease }
    requires able { CanRun (P.counted posting.old.partition) }
    ensures run { HasRun P.lasting lease.place
        (posting_by posting.old.post (P.counted posting.old.partition))
        (posting_by posting.new.post (P.counted posting.new.partition)) result }
{
    let worked = work(alloc, &mut posting.partition, plan, needs, &mut lease);
    hand_in(rt, board, &mut posting.post, lease, worked)
}

// Hands a lease in with what came of it, and tells whether the partition goes on.
fn hand_in<R: Wait, P: Partition, F: Folder>(
    rt: &R,
    board: &Board<Meant<P, F>, F>,
    post: &mut Post<Meant<P, F>, F>,
    lease: Lease<F>,
    worked: Worked,
) -> bool
    requires own { IsIn board.now.board post.old }
    requires suits { MayHandIn F.known post.old lease worked }
    requires meant { P.honest × F.tells → IsMeantAt P.compile_of post.old lease.place worked }
    ensures made { Adds (ended_by lease.place post.old.number worked ∷ []) post.old post.new }
    ensures goes { result ≡ goes_on worked }
    ensures free { IsTrue result → IsFreePost post.new }
    ensures returned { (place : ℕ) → HoldsPlace post.new place → ⊥ }
{
    match worked {
        Worked::Finished(twin) => {
            board.finish(rt, post, lease, twin);
            true
        }
        Worked::Failed(twin) => {
            board.fail(rt, post, lease, twin);
            true
        }
        Worked::Died => {
            board.give_back(rt, post, lease, BackCause::Died);
            false
        }
        Worked::TreeFault => {
            board.give_back(rt, post, lease, BackCause::Tree);
            false
        }
        Worked::NoMemory => {
            board.give_back(rt, post, lease, BackCause::Memory);
            false
        }
    }
}
