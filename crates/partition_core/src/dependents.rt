// Which places need a place.
ghost use Rattle.std.specs.Prelude.{◌≡◌, ◌<◌, ◌==◌, ◌||◌, ◌&&◌, [], ℕ, length, replicate, IfOk, OnOk};
ghost use Rattle.std.specs.List.{All};
ghost use Rattle.compile_model.specs.Planned.{ArePlanned};
ghost use Rattle.partition_core.specs.Agendas.{AreDependents, dependents_at, has};

use compile_model::{Job, Places};
use std::alloc::{AllocError, Global};

/// For each place the places that need it.
pub(crate) fn dependents_of(alloc: Global, jobs: &[Job]) -> Result<Vec<Places>, AllocError>
    requires { ArePlanned jobs.now }
    ensures { IfOk result (λ dependents. AreDependents jobs.now dependents.items) }
{
    let mut dependents = no_dependents(alloc, jobs.len())?;
    for (place, job) in jobs.iter().enumerate() {
        add_dependent(&mut dependents, place as u32, job.needs.as_slice())?;
    }
    Ok(dependents)
}

#[tactic(auto, using(std::proofs::lemmas::List::replicate_more))]
fn no_dependents(alloc: Global, count: usize) -> Result<Vec<Places>, AllocError>
    ensures { IfOk result (λ dependents. dependents.items ≡ replicate count []) }
{
    let mut dependents = Vec::with_capacity(alloc, count)?;
    for _ in 0..count {
        dependents.push(Places::new(alloc))?;
    }
    Ok(dependents)
}

/// Puts a place among the dependents of its needs.
fn add_dependent(dependents: &mut Vec<Places>, place: u32, needs: &[u32]) -> Result<(), AllocError>
    requires { All (λ need. need < length dependents.old.items) needs.now }
    ensures long { length dependents.new.items ≡ length dependents.old.items }
    ensures each { OnOk result ((need other : ℕ) →
        has (dependents_at dependents.new.items need) other
        ≡ (has (dependents_at dependents.old.items need) other
        || (place == other && has needs.now need))) }
{
    for need in needs {
        dependents[*need as usize].push(place)?;
    }
    Ok(())
}
