// The first cause for which an event isn't legal.
ghost use Rattle.std.specs.Prelude.{◌≡◌, ◌<◌, None, length, if◌then◌else◌};
ghost use Rattle.std.specs.List.{All};
ghost use Rattle.compile_model.specs.Planned.{IsNamed};
ghost use Rattle.partition_core.specs.State.{standing, is_running, is_run};
ghost use Rattle.partition_core.specs.Refusals.{is_idle, holds, not_free, not_acting, refused_act, refusal, place_of, by_of, unless, or_else};
ghost use Rattle.partition_core.specs.Lots.{fates_of, opening_of, state_of};

use crate::event::{Event, IllegalCause, Standing};
use crate::lot::{Lot, fate_at, missing, stands};
use compile_model::{Outcome, Plan};

/// What the partition of this number does.
pub fn standing(standings: &[Standing], by: u32) -> Option<Standing>
    ensures { result ≡ standing standings.now by }
{
    if by == 0 {
        return None;
    }
    standings.get(by as usize - 1).copied()
}

fn is_run(standing: Standing, place: u32) -> bool
    ensures { result ≡ is_run place standing }
{
    match standing {
        Standing::Runs(other) => other == place,
        _ => false,
    }
}

/// Whether some partition runs the place.
pub fn is_running(standings: &[Standing], place: u32) -> bool
    ensures { result ≡ is_running standings.now place }
{
    standings.iter().any(|standing| is_run(*standing, place))
}

fn holds(standings: &[Standing], place: u32, by: u32) -> bool
    ensures { result ≡ holds place (standing standings.now by) }
{
    match standing(standings, by) {
        Some(now) => is_run(now, place),
        None => false,
    }
}

fn is_idle(standings: &[Standing], by: u32) -> bool
    ensures { result ≡ is_idle (standing standings.now by) }
{
    match standing(standings, by) {
        Some(Standing::Idle) => true,
        _ => false,
    }
}

fn not_free(lots: &[Lot], standings: &[Standing], place: u32, by: u32) -> Option<IllegalCause>
    ensures { result ≡ not_free (state_of lots.now standings.now) place by }
{
    if !is_idle(standings, by) {
        return Some(IllegalCause::Busy);
    }
    if fate_at(lots, place).is_some() {
        return Some(IllegalCause::Settled);
    }
    if is_running(standings, place) {
        return Some(IllegalCause::Running);
    }
    None
}

/// What refuses an event, if anything does.
pub fn refusal(
    plan: &Plan,
    lots: &[Lot],
    standings: &[Standing],
    event: &Event,
) -> Option<IllegalCause>
    requires named { All IsNamed plan.now.jobs }
    requires places { length lots.now ≡ length plan.now.jobs }
    ensures { result ≡ refusal (opening_of plan.now lots.now standings.now)
        (state_of lots.now standings.now) event.now }
{
    if event.place() as usize >= plan.jobs.as_slice().len() {
        return Some(IllegalCause::NoPlace);
    }
    match standing(standings, event.by()) {
        None => return Some(IllegalCause::NoPartition),
        Some(Standing::Ended) => return Some(IllegalCause::Ended),
        _ => {}
    }
    refused_act(plan, lots, standings, event)
}

fn refused_act(
    plan: &Plan,
    lots: &[Lot],
    standings: &[Standing],
    event: &Event,
) -> Option<IllegalCause>
    requires named { All IsNamed plan.now.jobs }
    requires places { length lots.now ≡ length plan.now.jobs }
    requires within { place_of event.now < length plan.now.jobs }
    ensures { result ≡ refused_act (opening_of plan.now lots.now standings.now)
        (state_of lots.now standings.now) event.now }
{
    match event {
        Event::Keep { place, by } => { refused_taking(plan, lots, standings, *place, *by, true) }
        Event::Start { place, by } => { refused_taking(plan, lots, standings, *place, *by, false) }
        Event::Finish { place, by, outcome } => {
            refused_end(standings, *place, *by, outcome.get().status == 0)
        }
        Event::Fail { place, by, outcome } => {
            refused_end(standings, *place, *by, outcome.get().status != 0)
        }
        Event::Skip { place, need, by } => {
            refused_skip(plan, lots, standings, *place, *need, *by)
        }
        Event::Back { place, by, .. } => {
            if holds(standings, *place, *by) {
                None
            } else {
                Some(IllegalCause::NotRunning)
            }
        }
    }
}

// A place is kept where its mark stands, and started where it doesn't.
fn refused_taking(
    plan: &Plan,
    lots: &[Lot],
    standings: &[Standing],
    place: u32,
    by: u32,
    keeps: bool,
) -> Option<IllegalCause>
    requires named { All IsNamed plan.now.jobs }
    requires places { length lots.now ≡ length plan.now.jobs }
    requires within { place < length plan.now.jobs }
    ensures { result ≡ refused_act (opening_of plan.now lots.now standings.now)
        (state_of lots.now standings.now)
        (if keeps then Event.Keep place by else Event.Start place by) }
{
    if let Some(cause) = not_free(lots, standings, place, by) {
        return Some(cause);
    }
    let job = &plan.jobs.as_slice()[place as usize];
    let open_need = missing(lots, job.needs.as_slice());
    if let Some(need) = open_need {
        return Some(IllegalCause::NeedNotBuilt { need });
    }
    let stands = stands(job, lots, &lots[place as usize]);
    if keeps {
        if stands {
            None
        } else {
            Some(IllegalCause::MarkDiffers)
        }
    } else if stands {
        Some(IllegalCause::MarkMatches)
    } else {
        None
    }
}

fn refused_end(standings: &[Standing], place: u32, by: u32, fits: bool) -> Option<IllegalCause>
    ensures { result ≡ or_else (unless (holds place (standing standings.now by))
        IllegalCause.NotRunning) (unless fits IllegalCause.BadStatus) }
{
    if !holds(standings, place, by) {
        return Some(IllegalCause::NotRunning);
    }
    if fits {
        None
    } else {
        Some(IllegalCause::BadStatus)
    }
}

fn refused_skip(
    plan: &Plan,
    lots: &[Lot],
    standings: &[Standing],
    place: u32,
    need: u32,
    by: u32,
) -> Option<IllegalCause>
    requires within { place < length plan.now.jobs }
    ensures { result ≡ refused_act (opening_of plan.now lots.now standings.now)
        (state_of lots.now standings.now) (Event.Skip place need by) }
{
    if let Some(cause) = not_free(lots, standings, place, by) {
        return Some(cause);
    }
    let job = &plan.jobs.as_slice()[place as usize];
    match missing(lots, job.needs.as_slice()) {
        Some(first) if first == need && fate_at(lots, need).is_some() => None,
        _ => Some(IllegalCause::WrongNeed),
    }
}
