// Cases of builds by several partitions.
ghost use Rattle.std.specs.Prelude.{◌≡◌, None, IfOk};
ghost use Rattle.compile_model.specs.Echo.{echo_of, echo_failed_is_bare, echo_files_in_order, echo_nothing_is_empty};
ghost use Rattle.partition_core.specs.Refusals.{outcome_of};

use crate::openings::{kept_of, plan_of};
use case_texts::{Fault, contents_of, graph_of, number_of, push_after, say, word};
use compile_model::{Fate, Meaning, Outcome, Twin};
use dep_order::Graph;
use mix_report::trace;
use mx_base::{Bytes, Files, Shared};
use partition_core::{BackCause, Core, Event, Illegal};
use std::alloc::Global;

/// Partitions whose outcomes may be any.
struct Anything;

impl Meaning for Anything {
    ghost compile_of = { echo_of };

    ghost honest = { ⊥ };

    ghost files_in_order = { echo_files_in_order };

    ghost failed_is_bare = { echo_failed_is_bare };

    ghost nothing_is_empty = { echo_nothing_is_empty };
}

/// A graph, what is kept, a number of partitions, and steps with a semicolon after each: what each step is answered,
/// what became of each place, and the trace.
pub(crate) fn core_case(alloc: Global, out: &mut String, texts: &[Vec<u8>]) -> Result<(), Fault> {
    let [graph, kept, partitions, steps] = texts else {
        return Err(Fault::Form);
    };
    let graph = graph_of(alloc, word(graph.as_slice())?)?;
    let partitions = number_of(word(partitions.as_slice())?)?;
    let mut core = begun(alloc, &graph, kept.as_slice(), partitions)?;
    say(out, "ok")?;
    for step in word(steps.as_slice())?.split_terminator(';') {
        push_step(alloc, out, &mut core, step)?;
    }
    say(out, " fates")?;
    push_fates(out, &core)?;
    let trace = trace(alloc, core.plan(), core.history())?;
    push_after(alloc, out, " trace ", trace.as_slice())
}

fn begun(
    alloc: Global,
    graph: &Graph,
    kept: &[u8],
    partitions: u32,
) -> Result<Core<Anything>, Fault> {
    if partitions == 0 || partitions > 64 {
        return Err(Fault::Form);
    }
    let plan = plan_of(alloc, graph)?;
    let kept = kept_of(alloc, &plan, kept)?;
    let plan = Shared::new(alloc, plan)?;
    Ok(Core::begin(alloc, plan, kept, partitions)?)
}

/// An event is made, or it is asked what a partition does next.
fn push_step(
    alloc: Global,
    out: &mut String,
    core: &mut Core<Anything>,
    step: &str,
) -> Result<(), Fault> {
    let (kind, rest) = step.split_once(' ').ok_or(Fault::Form)?;
    let mut numbers = Vec::new(alloc);
    for number in rest.split(' ') {
        numbers.push(number_of(number)?)?;
    }
    let numbers = numbers.as_slice();
    match kind {
        "next" => push_next(out, core, numbers),
        "finish" | "fail" => push_compiled(alloc, out, core, kind, numbers),
        _ => {
            let event = event_of(kind, numbers)?;
            push_answer(out, core.step(event, None))
        }
    }
}

/// An event without an outcome.
fn event_of(kind: &str, numbers: &[u32]) -> Result<Event, Fault>
    ensures { IfOk result (λ event. None ≡ outcome_of event) }
{
    match (kind, numbers) {
        ("keep", [place, by]) => Ok(Event::Keep {
            place: *place,
            by: *by,
        }),
        ("start", [place, by]) => Ok(Event::Start {
            place: *place,
            by: *by,
        }),
        ("skip", [place, need, by]) => Ok(Event::Skip {
            place: *place,
            need: *need,
            by: *by,
        }),
        ("back", [place, by]) => Ok(Event::Back {
            place: *place,
            by: *by,
            cause: BackCause::Died,
        }),
        _ => Err(Fault::Form),
    }
}

/// A partition compiled a place: it says with which status, and which number is in its one file, if it has one.
fn push_compiled(
    alloc: Global,
    out: &mut String,
    core: &mut Core<Anything>,
    kind: &str,
    numbers: &[u32],
) -> Result<(), Fault> {
    let [place, by, status, file @ ..] = numbers else {
        return Err(Fault::Form);
    };
    let outcome = Outcome::of(alloc, *status, Bytes::new(alloc), files_of(alloc, file)?)?;
    let Twin { event, fate } = Twin::of(alloc, outcome)?;
    let event = match kind {
        "finish" => Event::Finish {
            place: *place,
            by: *by,
            outcome: event,
        },
        _ => Event::Fail {
            place: *place,
            by: *by,
            outcome: event,
        },
    };
    push_answer(out, core.step(event, Some(fate)))
}

/// No file, or one for each number.
fn files_of(alloc: Global, numbers: &[u32]) -> Result<Files, Fault> {
    let mut files = Vec::new(alloc);
    for number in numbers {
        files.push(Vec::from_slice(alloc, b"x")?)?;
        files.push(format!(in alloc; "{number}")?.into_bytes())?;
    }
    Ok(contents_of(alloc, files.as_slice())?.files(alloc)?)
}

fn push_answer(out: &mut String, answer: Result<(), Illegal>) -> Result<(), Fault> {
    match answer {
        Ok(()) => say(out, " ok;"),
        Err(Illegal { cause }) => {
            write!(out, " {cause:?};")?;
            Ok(())
        }
    }
}

fn push_next(out: &mut String, core: &Core<Anything>, numbers: &[u32]) -> Result<(), Fault> {
    let [by] = numbers else {
        return Err(Fault::Form);
    };
    if !core.is_free(*by) {
        return say(out, " taken;");
    }
    let next = core.next(*by);
    write!(out, " {next:?};")?;
    Ok(())
}

fn push_fates(out: &mut String, core: &Core<Anything>) -> Result<(), Fault> {
    for place in 0..core.plan().jobs.as_slice().len() as u32 {
        match core.fate(place) {
            None => say(out, " none;")?,
            Some(Fate::Built(_)) => say(out, " built;")?,
            Some(Fate::Failed(outcome)) => {
                let status = outcome.get().status;
                write!(out, " failed {status};")?;
            }
            Some(Fate::Skipped { need }) => write!(out, " skipped {need};")?,
        }
    }
    Ok(())
}
