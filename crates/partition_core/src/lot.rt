// What the core keeps of each place.
ghost use Rattle.std.specs.Prelude.{◌≡◌, ◌<◌, None, Some, length, option_map, slice_set, IsTrue, IsSome};
ghost use Rattle.std.specs.Option.{option_copied};
ghost use Rattle.compile_model.specs.declared.outcome.Fate.TheVariants.{Built};
ghost use Rattle.compile_model.specs.Planned.{IsNamed};
ghost use Rattle.staleness.specs.Matching.{needs_match};
ghost use Rattle.partition_core.specs.State.{at, built_at, first_open, outcomes_now, kept_matches};
ghost use Rattle.partition_core.specs.Lots.{fate_of, kept_of, fates_of, kepts_of};

use build_manifest::Mark;
use compile_model::{Fate, Job, Outcome};
use mx_base::Shared;
use staleness::{Kept, matches_job, matches_need};
use std::mem;

/// A place: what was kept of it, and its fate.
#[derive(Drop)]
pub enum Lot {
    /// It has no fate.
    Open(Option<Kept>),
    /// Its fate is the outcome that was kept, with this mark.
    Reused { mark: Mark, fate: Fate },
    Settled { kept: Option<Kept>, fate: Fate },
}

impl Lot {
    pub fn fate(&self) -> Option<&Fate>
        ensures { option_copied result ≡ fate_of self.now }
    {
        match self {
            Lot::Open(_) => None,
            Lot::Reused { fate, .. } => Some(fate),
            Lot::Settled { fate, .. } => Some(fate),
        }
    }

    pub fn into_fate(self) -> Option<Fate>
        ensures { result ≡ fate_of self }
    {
        match self {
            Lot::Open(kept) => {
                drop(kept);
                None
            }
            Lot::Reused { mark, fate } => {
                drop(mark);
                Some(fate)
            }
            Lot::Settled { kept, fate } => {
                drop(kept);
                Some(fate)
            }
        }
    }

    /// The mark that may still be kept.
    pub fn mark(&self) -> Option<&Mark>
        requires { fate_of self.now ≡ None }
        ensures { option_copied result ≡ option_map (λ kept. kept.mark) (kept_of self.now) }
    {
        match self {
            Lot::Open(Some(kept)) => Some(&kept.mark),
            _ => None,
        }
    }

    /// Gives the place a fate.
    pub fn settle(&mut self, fate: Fate)
        requires { fate_of self.old ≡ None }
        ensures fate { fate_of self.new ≡ Some fate }
        ensures kept { kept_of self.new ≡ kept_of self.old }
    {
        let was = mem::replace(self, Lot::Open(None));
        *self = match was {
            Lot::Open(kept) => Lot::Settled { kept, fate },
            other => other,
        };
    }

    /// Makes what was kept the fate of the place.
    pub fn keep(&mut self)
        requires open { fate_of self.old ≡ None }
        requires there { IsSome (kept_of self.old) }
        ensures fate { fate_of self.new ≡ option_map (λ kept. Built kept.outcome)
            (kept_of self.old) }
        ensures kept { kept_of self.new ≡ kept_of self.old }
    {
        let was = mem::replace(self, Lot::Open(None));
        *self = match was {
            Lot::Open(Some(kept)) => reused(kept),
            other => other,
        };
    }
}

/// The lot whose fate is what was kept.
fn reused(kept: Kept) -> Lot
    ensures { result ≡ Lot.Reused kept.mark (Built kept.outcome) }
{
    let Kept { mark, outcome } = kept;
    Lot::Reused {
        mark,
        fate: Fate::Built(outcome),
    }
}

pub fn fate_at(lots: &[Lot], place: u32) -> Option<&Fate>
    ensures { option_copied result ≡ at (fates_of lots.now) place }
{
    lots.get(place as usize)?.fate()
}

pub(crate) fn built_at(lots: &[Lot], place: u32) -> Option<&Shared<Outcome>>
    ensures { option_copied result ≡ built_at (fates_of lots.now) place }
{
    match fate_at(lots, place)? {
        Fate::Built(outcome) => Some(outcome),
        _ => None,
    }
}

/// The first of these needs that isn't built.
pub fn missing(lots: &[Lot], needs: &[u32]) -> Option<u32>
    ensures { result ≡ first_open (fates_of lots.now) needs.now }
{
    for need in needs {
        if built_at(lots, *need).is_none() {
            return Some(*need);
        }
    }
    None
}

fn matches_needs(mark: &Mark, lots: &[Lot], needs: &[u32]) -> bool
    requires as_many { length needs.now ≡ length mark.now.needs }
    requires built { first_open (fates_of lots.now) needs.now ≡ None }
    ensures { result ≡ needs_match mark.now.needs 0 (outcomes_now (fates_of lots.now) needs.now) }
{
    for (index, need) in needs.iter().enumerate() {
        let Some(outcome) = built_at(lots, *need) else {
            return false;
        };
        if !matches_need(mark, index, outcome.get()) {
            return false;
        }
    }
    true
}

/// Whether what was kept of the place was made from what it is made from now.
pub fn stands(job: &Job, lots: &[Lot], lot: &Lot) -> bool
    requires named { IsNamed job.now }
    requires built { first_open (fates_of lots.now) job.now.needs ≡ None }
    requires open { fate_of lot.now ≡ None }
    ensures { result ≡ kept_matches (kept_of lot.now) (Some job.now)
        (outcomes_now (fates_of lots.now) job.now.needs) }
{
    match lot.mark() {
        Some(mark) => { matches_job(mark, job) && matches_needs(mark, lots, job.needs.as_slice()) }
        None => false,
    }
}

pub fn settle_at(lots: &mut [Lot], place: u32, fate: Fate)
    requires within { place < length lots.old }
    requires open { at (fates_of lots.old) place ≡ None }
    ensures fates { fates_of lots.new ≡ slice_set (fates_of lots.old) place (Some fate) }
    ensures kept { kepts_of lots.new ≡ kepts_of lots.old }
{
    lots[place as usize].settle(fate);
}

pub fn keep_at(lots: &mut [Lot], place: u32)
    requires within { place < length lots.old }
    requires open { at (fates_of lots.old) place ≡ None }
    requires there { IsSome (at (kepts_of lots.old) place) }
    ensures fates { fates_of lots.new ≡ slice_set (fates_of lots.old) place
        (option_map (λ kept. Built kept.outcome) (at (kepts_of lots.old) place)) }
    ensures kept { kepts_of lots.new ≡ kepts_of lots.old }
{
    lots[place as usize].keep();
}
