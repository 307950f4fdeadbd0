// A maker that hands out given partitions.
ghost use Rattle.std.specs.Prelude.{◌≡◌, ◌≤◌, IfOk, OnErr, OnOk, drop, map, nat_lt, take, vec_len};
ghost use Rattle.std.specs.List.{All};
ghost use Rattle.mx_base.specs.Causes.{Counted};
ghost use Rattle.partition_face.specs.Counts.{fresh};
ghost use Rattle.partition_face.specs.Makers.{Stops, maker_of, new_maker};

use crate::counts::Counts;
use crate::maker::{Maker, MakerFault};
use crate::partition::Partition;
use mx_base::{FaultPlan, Faults};
use std::alloc::{AllocError, Global};
use std::mem;

/// Hands out the first of its partitions, in their order, as many as it is asked for, and then the next of them.
/// Where it has fewer that counts as a fault. It starts none at the calls of a list, numbered from 1.
#[derive(Drop)]
pub struct ListMaker<P: Partition> {
    waiting: Vec<P>,
    stopped: Counts,
    asked: u64,
    plan: FaultPlan,
    pub ghost ready: { All (λ partition. P.counted partition ≡ fresh) waiting.items },
}

impl<P: Partition + Drop> ListMaker<P> {
    /// A maker of these partitions, none of which has made a run or died, that fails at the calls of these numbers.
    pub fn new(partitions: Vec<P>, failing: Vec<u64>) -> ListMaker<P>
        requires { All (λ partition. P.counted partition ≡ fresh) partitions.items }
        ensures { ⟦<ListMaker<P> as Maker>⟧.known result ≡ new_maker }
    {
        ListMaker {
            waiting: partitions,
            stopped: Counts::new(),
            asked: 0,
            plan: FaultPlan::new(failing),
        }
    }
}

impl<P: Partition + Drop> Maker for ListMaker<P> {
    type P = P;

    ghost known = { λ maker. maker_of maker.stopped maker.asked maker.plan };

    #[tactic(auto, using(crate::proofs::StartLemmas::starts_first))]
    fn start(&mut self, _alloc: Global, n: u32) -> Result<Vec<P>, MakerFault> {
        self.asked = self.asked.saturating_add(n as u64);
        if self.plan.fails() {
            return Err(MakerFault::Failed);
        }
        let wanted = n as usize;
        let given = self.waiting.len().min(wanted);
        let started = take_first(&mut self.waiting, given)?;
        count_missing(&mut self.plan, given, wanted);
        if given == 0 && wanted > 0 {
            return Err(MakerFault::Failed);
        }
        Ok(started)
    }

    #[tactic(auto, using(crate::proofs::CountLemmas::runs_more, crate::proofs::CountLemmas::deaths_more))]
    fn stop(&mut self, partitions: Vec<P>)
        ensures { Stops (map P.counted partitions.items)
            (maker_of self.old.stopped self.old.asked self.old.plan)
            (maker_of self.new.stopped self.new.asked self.new.plan) }
    {
        for partition in partitions {
            self.stopped = self.stopped.plus(partition.counts());
        }
        self.stopped.stand();
    }
}

// Counts a fault where fewer are given than were wanted.
fn count_missing(plan: &mut FaultPlan, given: usize, wanted: usize)
    ensures { Counted plan.old plan.new (nat_lt given wanted) }
{
    if given < wanted {
        plan.raise();
    }
}

// Takes the first so many out.
fn take_first<P>(waiting: &mut Vec<P>, n: usize) -> Result<Vec<P>, AllocError>
    requires { n ≤ vec_len waiting.old }
    ensures taken { IfOk result (λ taken. taken.items ≡ take n waiting.old.items) }
    ensures left { OnOk result (waiting.new.items ≡ drop n waiting.old.items) }
    ensures err { OnErr result (waiting.new.items ≡ waiting.old.items) }
{
    let rest = waiting.split_off(n)?;
    Ok(mem::replace(waiting, rest))
}
