// Cases of graphs.
ghost use Rattle.std.specs.Prelude.{◌<◌, IfOk};
ghost use Rattle.std.specs.List.{All};

use case_texts::{Fault, graph_of, number_of, say, word};
use dep_order::{Graph, OrderError, Places, closure, order};
use std::alloc::{AllocError, Global};

/// More places are shown by their number and the first of them.
const MOST_SHOWN: usize = 100;

/// A graph: its order, or its cycle.
pub(crate) fn order_case(alloc: Global, out: &mut String, texts: &[Vec<u8>]) -> Result<(), Fault> {
    let [graph] = texts else {
        return Err(Fault::Form);
    };
    let graph = graph_of(alloc, word(graph.as_slice())?)?;
    push_order(out, &order(alloc, &graph))
}

fn push_order(out: &mut String, answer: &Result<Vec<usize>, OrderError>) -> Result<(), Fault> {
    match answer {
        Ok(places) => {
            say(out, "ok")?;
            push_places(out, places.as_slice())
        }
        Err(OrderError::Cycle(places)) => {
            say(out, "refused - Cycle")?;
            push_places(out, places.as_slice())
        }
        Err(OrderError::OutOfMemory) => Err(Fault::Memory),
    }
}

/// A graph that has an order, and a place: what the place reaches.
pub(crate) fn closure_case(
    alloc: Global,
    out: &mut String,
    texts: &[Vec<u8>],
) -> Result<(), Fault> {
    let [graph, place] = texts else {
        return Err(Fault::Form);
    };
    let place = number_of(word(place.as_slice())?)? as usize;
    let graph = graph_of(alloc, word(graph.as_slice())?)?;
    let reached = reached_from(alloc, &graph, place)?;
    say(out, "ok")?;
    push_places(out, reached.as_slice())
}

fn reached_from(alloc: Global, graph: &Graph, place: usize) -> Result<Vec<usize>, Fault> {
    if place >= graph.needs().len() {
        return Err(Fault::Form);
    }
    let Ok(places) = order(alloc, graph) else {
        return Err(Fault::Form);
    };
    Ok(closure(alloc, graph, places.as_slice(), place)?)
}

fn push_places(out: &mut String, places: &[usize]) -> Result<(), Fault> {
    if places.len() > MOST_SHOWN {
        let count = places.len();
        let first = places[0];
        write!(out, " {count} places from {first}")?;
        return Ok(());
    }
    for place in places {
        write!(out, " {place}")?;
    }
    Ok(())
}
