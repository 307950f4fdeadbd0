// A maker that never fails.
ghost use Rattle.std.specs.Prelude.{◌≡◌, map};
ghost use Rattle.partition_face.specs.Makers.{Stops, maker_of, new_maker};

use crate::counts::Counts;
use crate::lasting::Lasting;
use crate::lasting_partition::LastingPartition;
use crate::maker::{Maker, MakerFault};
use crate::partition::Partition;
use compile_model::EchoCompiler;
use std::alloc::Global;
use std::marker::PhantomData;

/// Starts as many partitions as it is asked for, which compile as a compiler that never dies. It never fails.
#[derive(Drop)]
pub struct LastingMaker<C> {
    stopped: Counts,
    asked: u64,
    compiler: PhantomData<C>,
}

/// Starts as many `EchoPartition`s as it is asked for. It never fails.
pub type EchoMaker = LastingMaker<EchoCompiler>;

impl<C: Lasting + Send> LastingMaker<C> {
    /// A maker that was asked for none.
    pub fn new() -> LastingMaker<C>
        ensures { ⟦<LastingMaker<C> as Maker>⟧.known result ≡ new_maker }
    {
        LastingMaker {
            stopped: Counts::new(),
            asked: 0,
            compiler: PhantomData,
        }
    }
}

impl<C: Lasting + Send> Maker for LastingMaker<C> {
    type P = LastingPartition<C>;

    ghost known = { λ maker. maker_of maker.stopped maker.asked 0 };

    fn start(&mut self, alloc: Global, n: u32) -> Result<Vec<LastingPartition<C>>, MakerFault> {
        self.asked = self.asked.saturating_add(n as u64);
        let mut started = Vec::new(alloc);
        for made in 0..n {
            started.push(LastingPartition::unused())?;
        }
        Ok(started)
    }

    #[tactic(auto, using(crate::proofs::CountLemmas::runs_more, crate::proofs::CountLemmas::deaths_more))]
    fn stop(&mut self, partitions: Vec<LastingPartition<C>>)
        ensures { Stops (map ⟦<LastingPartition<C> as Partition>⟧.counted partitions.items)
            (maker_of self.old.stopped self.old.asked 0)
            (maker_of self.new.stopped self.new.asked 0) }
    {
        for partition in partitions {
            self.stopped = self.stopped.plus(partition.counted());
        }
        self.stopped.stand();
    }
}
