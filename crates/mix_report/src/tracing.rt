// The trace of a build.
ghost use Rattle.std.specs.Prelude.{◌≡◌, ◌++◌, IfOk, OnOk};
ghost use Rattle.mix_report.specs.Trace.{trace, event_line, event_text, skip_text, by_text};

use crate::app::app_at;
use compile_model::{Job, Plan};
use mx_base::{Bytes, push_decimal};
use partition_core::Event;
use std::alloc::{AllocError, Global};

/// One line for each event in order: what happened, to which app, and by which partition.
///
/// Its only error is want of memory.
pub fn trace(alloc: Global, plan: &Plan, history: &[Event]) -> Result<Bytes, AllocError>
    ensures { IfOk result (λ text. text ≡ trace plan.now.jobs history.now) }
{
    let mut text = Vec::new(alloc);
    push_events(alloc, &mut text, plan.jobs.as_slice(), history)?;
    Ok(Bytes::from_vec(text))
}

fn push_events(
    alloc: Global,
    text: &mut Vec<u8>,
    jobs: &[Job],
    history: &[Event],
) -> Result<(), AllocError>
    ensures { OnOk result (text.new.items ≡ text.old.items ++ trace jobs.now history.now) }
{
    for event in history {
        push_line(alloc, text, jobs, event)?;
    }
    Ok(())
}

fn push_line(
    alloc: Global,
    text: &mut Vec<u8>,
    jobs: &[Job],
    event: &Event,
) -> Result<(), AllocError>
    ensures { OnOk result (text.new.items ≡ text.old.items ++ event_line jobs.now event.now) }
{
    let app = app_at(jobs, event.place());
    match event {
        Event::Keep { by, .. } => push_event(alloc, text, b"keep ", app, *by),
        Event::Start { by, .. } => push_event(alloc, text, b"start ", app, *by),
        Event::Finish { by, .. } => push_event(alloc, text, b"finish ", app, *by),
        Event::Fail { by, .. } => push_event(alloc, text, b"fail ", app, *by),
        Event::Skip { need, by, .. } => push_skip(alloc, text, app, app_at(jobs, *need), *by),
        Event::Back { by, .. } => push_event(alloc, text, b"back ", app, *by),
    }
}

fn push_skip(
    alloc: Global,
    text: &mut Vec<u8>,
    app: &[u8],
    need: &[u8],
    by: u32,
) -> Result<(), AllocError>
    ensures { OnOk result (text.new.items ≡ text.old.items ++ skip_text app.now need.now by) }
{
    text.extend_from_slice(b"skip ")?;
    text.extend_from_slice(app)?;
    push_event(alloc, text, b" for ", need, by)
}

// What happened to the app, and by which partition.
fn push_event(
    alloc: Global,
    text: &mut Vec<u8>,
    word: &[u8],
    app: &[u8],
    by: u32,
) -> Result<(), AllocError>
    ensures { OnOk result (text.new.items ≡ text.old.items ++ event_text word.now app.now by) }
{
    text.extend_from_slice(word)?;
    text.extend_from_slice(app)?;
    push_by(alloc, text, by)
}

fn push_by(alloc: Global, text: &mut Vec<u8>, by: u32) -> Result<(), AllocError>
    ensures { OnOk result (text.new.items ≡ text.old.items ++ by_text by) }
{
    text.extend_from_slice(b" on ")?;
    push_decimal(alloc, text, by as u64)?;
    text.extend_from_slice(b"\n")
}
