// Partitions in memory that never die.
ghost use Rattle.std.specs.Prelude.{◌≡◌};
ghost use Rattle.partition_face.specs.Counts.{fresh};

use crate::counts::Counts;
use crate::lasting::{Lasting, compile_into};
use crate::partition::{Partition, RunFault};
use compile_model::{EchoCompiler, Input, Meaning, Verdict};
use std::alloc::Global;
use std::marker::PhantomData;
use tree_store::Folder;

/// Compiles as a compiler that never dies. It is honest, and never dies itself.
#[derive(Drop)]
pub struct LastingPartition<C> {
    runs: u64,
    compiler: PhantomData<C>,
}

/// Follows the echo rule, is honest, and never dies.
pub type EchoPartition = LastingPartition<EchoCompiler>;

impl<C: Lasting + Send> LastingPartition<C> {
    /// A partition that has made no run.
    pub fn new() -> LastingPartition<C>
        ensures { ⟦<LastingPartition<C> as Partition>⟧.counted result ≡ fresh }
    {
        LastingPartition::unused()
    }
}

// These ask nothing of the compiler, so that code over any of them may call them.
impl<C> LastingPartition<C> {
    pub(crate) fn unused() -> LastingPartition<C>
        ensures { result.runs ≡ 0 }
    {
        LastingPartition {
            runs: 0,
            compiler: PhantomData,
        }
    }

    pub(crate) fn counted(&self) -> Counts
        ensures { result ≡ record { runs = self.now.runs; deaths = 0 } }
    {
        Counts {
            runs: self.runs,
            deaths: 0,
        }
    }
}

impl<C: Lasting> Meaning for LastingPartition<C> {
    ghost compile_of = { C.compile_of };

    ghost honest = { Unit {0} };

    ghost files_in_order = { C.files_in_order };

    ghost failed_is_bare = { C.failed_is_bare };

    ghost nothing_is_empty = { C.nothing_is_empty };
}

impl<C: Lasting + Send> Partition for LastingPartition<C> {
    ghost counted = { λ partition. record { runs = partition.runs; deaths = 0 } };

    ghost lasting = { Unit {0} };

    fn counts(&self) -> Counts {
        self.counted()
    }

    fn run<F: Folder>(
        &mut self,
        alloc: Global,
        input: &Input,
        folder: &mut F,
    ) -> Result<Verdict, RunFault> {
        self.runs += 1;
        compile_into::<C, F>(alloc, input, folder)
    }
}
