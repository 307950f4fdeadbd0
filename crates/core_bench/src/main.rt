//! The program `core_bench`: a build of many places by 64 partitions, event by event, made as often as it is told. It
//! prints how many events the last one had, and how many of its places have fates.
//!
//! Its words are a number of places, from 1 to 4,096, and a number of builds. Without words it is one build of 4,096
//! places.
#![tactic(auto)]

mod building;
mod planning;

use building::{Anything, built, empty_outcome};
use mx_base::Shared;
use partition_core::Core;
use planning::plan_of;
use std::alloc::{AllocError, Global};
use std::{env, io};

/// The last of so many builds of so many places.
fn last_build(alloc: Global, places: u32, builds: u32) -> Result<Core<Anything>, AllocError> {
    let plan = Shared::new(alloc, plan_of(alloc, places)?)?;
    let outcome = empty_outcome(alloc)?;
    for _before in 1..builds {
        built(alloc, plan.clone()?, &outcome)?;
    }
    built(alloc, plan, &outcome)
}

/// How many places have fates.
fn settled(core: &Core<Anything>) -> usize {
    let places = core.plan().jobs.as_slice().len() as u32;
    (0..places)
        .filter(|&place| core.fate(place).is_some())
        .count()
}

// The number that a word says, or this one where it says none.
fn number_of(word: Option<String>, default: u32) -> u32 {
    word.and_then(|word| word.parse().ok()).unwrap_or(default)
}

fn main(rt: HostRuntime) -> io::Result<()> {
    let mut words = env::args(&rt)?.skip(1);
    let places = number_of(words.next(), 4_096).clamp(1, 4_096);
    let builds = number_of(words.next(), 1);
    let core = last_build(rt.alloc(), places, builds)?;
    let events = core.history().len();
    let settled = settled(&core);
    println!(rt; "{events} events, {settled} of {places} places have fates")
}
