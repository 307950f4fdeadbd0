// Which places need a place.
ghost use Rattle.std.specs.Prelude.{◌≡◌, [], ℕ, ◌+◌, ◌<◌, replicate, length, OnOk, IfOk, if◌then◌else◌, ◌==◌};
ghost use Rattle.std.specs.List.{All};
ghost use Rattle.dep_order.specs.Graph.{needs_of};
ghost use Rattle.dep_order.specs.Pending.{times, AreDependents};

use crate::graph::{Graph, Places};
use std::alloc::{AllocError, Global};

/// For each place the places that need it, each as often as it names that one.
pub(crate) fn dependents_of(alloc: Global, graph: &Graph) -> Result<Vec<Places>, AllocError>
    ensures { IfOk result (λ dependents. AreDependents graph.now dependents.items) }
{
    let needs = graph.needs();
    let mut dependents = without_dependents(alloc, needs.len())?;
    for (place, needs) in needs.iter().enumerate() {
        add_dependent(&mut dependents, place, needs.as_slice())?;
    }
    Ok(dependents)
}

fn without_dependents(alloc: Global, count: usize) -> Result<Vec<Places>, AllocError>
    ensures { IfOk result (λ dependents. dependents.items ≡ replicate count []) }
{
    let mut dependents = Vec::with_capacity(alloc, count)?;
    for _ in 0..count {
        dependents.push(Places::new(alloc))?;
    }
    Ok(dependents)
}

/// Puts a place among the dependents of its needs.
fn add_dependent(
    dependents: &mut Vec<Places>,
    place: usize,
    needs: &[usize],
) -> Result<(), AllocError>
    requires { All (λ need. need < length dependents.old.items) needs.now }
    ensures long { length dependents.new.items ≡ length dependents.old.items }
    ensures each { OnOk result ((need other : ℕ) →
        times other (needs_of dependents.new.items need)
        ≡ times other (needs_of dependents.old.items need)
        + (if other == place then times need needs.now else 0)) }
{
    for need in needs {
        dependents[*need].push(place)?;
    }
    Ok(())
}
