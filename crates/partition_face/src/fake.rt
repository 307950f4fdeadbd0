// A partition in memory that may die.
ghost use Rattle.std.specs.Prelude.{◌≡◌};
ghost use Rattle.mx_base.specs.Blame.{fails};
ghost use Rattle.mx_base.specs.Causes.{Counted};
ghost use Rattle.compile_model.specs.Echo.{echo_failed_is_bare, echo_files_in_order, echo_nothing_is_empty, echo_of};
ghost use Rattle.tree_store.specs.Blame.{blame_of};
ghost use Rattle.tree_store.specs.FolderKnown.{IsBare};
ghost use Rattle.partition_face.specs.Counts.{fresh};
ghost use Rattle.partition_face.specs.Runs.{NeverMarks};

use crate::counts::Counts;
use crate::lasting::compile_into;
use crate::partition::{Partition, RunFault};
use compile_model::{EchoCompiler, Input, Meaning, Verdict};
use mx_base::RelPath;
use std::alloc::Global;
use tree_store::{Folder, StoreFault};

/// Follows the echo rule, and is honest. It dies at the runs of a list, numbered from 1, after it wrote a file
/// `scribble`.
#[derive(Drop)]
pub struct FakePartition {
    dying: Vec<u64>,
    counts: Counts,
}

impl FakePartition {
    /// A partition that has made no run, and dies at the runs of these numbers.
    pub fn new(dying: Vec<u64>) -> FakePartition
        ensures { ⟦<FakePartition as Partition>⟧.counted result ≡ fresh }
    {
        FakePartition {
            dying,
            counts: Counts::new(),
        }
    }
}

impl Meaning for FakePartition {
    ghost compile_of = { echo_of };

    ghost honest = { Unit {0} };

    ghost files_in_order = { echo_files_in_order };

    ghost failed_is_bare = { echo_failed_is_bare };

    ghost nothing_is_empty = { echo_nothing_is_empty };
}

impl Partition for FakePartition {
    ghost counted = { λ partition. partition.counts };

    ghost lasting = { ⊥ };

    fn counts(&self) -> Counts {
        self.counts
    }

    fn run<F: Folder>(
        &mut self,
        alloc: Global,
        input: &Input,
        folder: &mut F,
    ) -> Result<Verdict, RunFault> {
        self.counts.runs += 1;
        if self.dying.contains(&self.counts.runs) {
            scribble(alloc, folder)?;
            self.counts.deaths += 1;
            return Err(RunFault::Died);
        }
        compile_into::<EchoCompiler, F>(alloc, input, folder)
    }
}

// Leaves a file that belongs to no outcome.
fn scribble<F: Folder>(alloc: Global, folder: &mut F) -> Result<(), StoreFault>
    requires { IsBare (F.known folder.old) }
    ensures unmarked { NeverMarks (F.known folder.old) (F.known folder.new) }
    ensures tree { Counted (F.known folder.old).faults (F.known folder.new).faults
        (fails blame_of result) }
{
    let path = RelPath::root(alloc).child(alloc, "scribble")?;
    folder.put(alloc, &path, b"scribble")?;
    Ok(())
}
