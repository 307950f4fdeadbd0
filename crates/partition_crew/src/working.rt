// Working on a lease.
ghost use Rattle.std.specs.Prelude.{◌≡◌, ◌<◌, IfSome, length, slice_get};
ghost use Rattle.compile_model.specs.Planned.{ArePlanned};
ghost use Rattle.honest_tree.specs.Given.{outcome_of};
ghost use Rattle.partition_face.specs.Counts.{CanRun};
ghost use Rattle.partition_crew.specs.Work.{HasNeeds, HasWorked, IsCounted, IsMeant, StaysHonest, Touches, given_at, tree_failed};

use crate::compiling::compile_into;
use crate::worked::Worked;
use compile_model::{Outcome, Plan};
use mx_base::Shared;
use partition_board::Lease;
use partition_face::Partition;
use std::alloc::Global;
use tree_store::Folder;

/// Compiles the job of a lease's place, with these outcomes of its needs, into the lease's folder, whatever lies
/// there. The folder is unmarked and emptied before the run. After status 0 its files are read and its mark is
/// written, and after another status it is emptied again.
pub fn work<P: Partition, F: Folder>(
    alloc: Global,
    partition: &mut P,
    plan: &Plan,
    needs: &[Shared<Outcome>],
    lease: &mut Lease<F>,
) -> Worked
    requires planned { ArePlanned plan.now.jobs }
    requires place { lease.old.place < length plan.now.jobs }
    requires needs { IfSome (given_at plan.now lease.old.place needs.now) HasNeeds }
    requires able { CanRun (P.counted partition.old) }
    ensures lease { (lease.new.place ≡ lease.old.place) × (lease.new.by ≡ lease.old.by) }
    // What came of it, what the folder then holds, and what was written on the way.
    ensures worked { IfSome (given_at plan.now lease.old.place needs.now) (λ given.
        HasWorked given result (F.known lease.old.folder) (F.known lease.new.folder)) }
    // It is what compiling means, where the partitions are honest and the folder tells what it holds.
    ensures meant { P.honest → IfSome (F.known lease.old.folder).held (λ _.
        IfSome (given_at plan.now lease.old.place needs.now) (λ given.
        IsMeant (outcome_of P.compile_of given) result)) }
    // Wherever a stop comes, an honest folder stays honest.
    ensures honest { P.honest → IfSome (given_at plan.now lease.old.place needs.now) (λ given.
        StaysHonest P.compile_of given (F.known lease.old.folder) (F.known lease.new.folder)) }
    ensures counts { IsCounted P.lasting (P.counted partition.old) (P.counted partition.new)
        result }
    ensures folder { Touches (F.known lease.old.folder) (F.known lease.new.folder)
        (tree_failed result) }
{
    let job = &plan.jobs.as_slice()[lease.place as usize];
    Worked::of(compile_into(alloc, partition, job, needs, &mut lease.folder))
}
