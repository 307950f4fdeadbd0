// The steps of the core, with the folders.
ghost use Rattle.std.specs.Prelude.{◌≡◌, ◌<◌, [], Some, OnOk, length};
ghost use Rattle.std.specs.Option.{option_copied};
ghost use Rattle.partition_core.specs.State.{built_at, needs_at, outcomes_now, standing};
ghost use Rattle.partition_core.specs.Steps.{IsLegal, after};
ghost use Rattle.partition_core.specs.Refusals.{outcome_of, place_of};
ghost use Rattle.partition_core.specs.Histories.{IsFaithful, Legal};
ghost use Rattle.partition_core.specs.Story.{state_now, with_event};
ghost use Rattle.partition_board.specs.Homes.{Belongs, IsHoused};
ghost use Rattle.partition_board.specs.Answers.{IsFront, next_of};
ghost use Rattle.partition_board.specs.Steps.{AnsweredAt, IsLentAt, SuitsEvent};

use crate::house::House;
use crate::lease::Lease;
use crate::take::{Front, Take};
use compile_model::{Fate, Meaning, Outcome};
use mx_base::Shared;
use partition_core::{Core, Event, Next, Standing};
use std::alloc::AllocError;
use tree_store::Folder;

// Makes an event that is legal.
pub(crate) fn make<M: Meaning>(core: &mut Core<M>, event: Event, fate: Option<Shared<Outcome>>)
    requires fate { fate ≡ outcome_of event }
    requires meant { M.honest → IsFaithful M.compile_of core.old.opening (state_now core.old) event }
    requires legal { IsLegal core.old.opening (state_now core.old) event }
    ensures story { core.new ≡ with_event core.old event }
    ensures state { state_now core.new ≡ after core.old.opening (state_now core.old) event }
    ensures within { place_of event < length core.old.opening.plan.jobs }
    ensures legal { Legal core.old.opening core.old.events }
{
    let _front = front(core);
    core.step(event, fate).unwrap();
}

// How long the history is. A call of it also shows that the history is legal.
pub(crate) fn front<M: Meaning>(core: &Core<M>) -> Front
    ensures length { result.events ≡ length core.now.events }
    ensures legal { Legal core.now.opening core.now.events }
{
    Front {
        events: core.history().len() as u64,
    }
}

// What the partition of this number is given to do.
pub(crate) fn take_from<M: Meaning, F: Folder>(
    core: &mut Core<M>,
    house: &mut House<F>,
    by: u32,
    needs: &mut Vec<Shared<Outcome>>,
) -> Take<F>
    requires idle { standing (state_now core.old).standings by ≡ Some Standing.Idle }
    requires home { IsHoused F.known core.old house.old }
    requires empty { needs.old.items ≡ [] }
    ensures handed { house.new.handed ≡ house.old.handed }
    ensures home { IsHoused F.known core.new house.new }
    ensures answer { AnsweredAt by core.old (next_of result) core.new }
    ensures front { IsFront (length core.new.events) result }
    ensures lent { IsLentAt F.known core.new house.new by needs.new.items result }
{
    match core.next(by) {
        Next::Later => Take::Later(front(core)),
        Next::Over => Take::Over(front(core)),
        Next::Keep(place) => {
            make(core, Event::Keep { place, by }, None);
            Take::Kept { place }
        }
        Next::Skip { place, need } => {
            make(core, Event::Skip { place, need, by }, None);
            Take::Skipped { place, need }
        }
        Next::Start(place) => {
            if collect(core, place, needs).is_err() {
                needs.clear();
                return Take::NoMemory;
            }
            let folder = start(core, house, place, by);
            Take::Started(Lease { place, by, folder })
        }
    }
}

// A place is started, and its folder leaves home.
fn start<M: Meaning, F: Folder>(core: &mut Core<M>, house: &mut House<F>, place: u32, by: u32) -> F
    requires home { IsHoused F.known core.old house.old }
    requires legal { IsLegal core.old.opening (state_now core.old) (Event.Start place by) }
    ensures story { core.new ≡ with_event core.old (Event.Start place by) }
    ensures state { state_now core.new
        ≡ after core.old.opening (state_now core.old) (Event.Start place by) }
    ensures handed { house.new.handed ≡ house.old.handed }
    ensures home { IsHoused F.known core.new house.new }
    ensures folder { Belongs F.known house.new.handed core.new.events place result }
{
    make(core, Event::Start { place, by }, None);
    house.lend(place)
}

// A partition stops running a place, whose folder comes back.
pub(crate) fn end<M: Meaning, F: Folder>(
    core: &mut Core<M>,
    house: &mut House<F>,
    event: Event,
    fate: Option<Shared<Outcome>>,
    folder: F,
)
    requires home { IsHoused F.known core.old house.old }
    requires fate { fate ≡ outcome_of event }
    requires meant { M.honest → IsFaithful M.compile_of core.old.opening (state_now core.old) event }
    requires legal { IsLegal core.old.opening (state_now core.old) event }
    requires suits { SuitsEvent F.known core.old house.old.handed event folder }
    ensures handed { house.new.handed ≡ house.old.handed }
    ensures story { core.new ≡ with_event core.old event }
    ensures home { IsHoused F.known core.new house.new }
{
    let place = event.place();
    make(core, event, fate);
    house.take_in(place, folder);
}

// The outcomes of the needs of a place that are built.
fn collect<M: Meaning>(
    core: &Core<M>,
    place: u32,
    needs: &mut Vec<Shared<Outcome>>,
) -> Result<(), AllocError>
    requires within { place < length core.now.opening.plan.jobs }
    requires empty { needs.old.items ≡ [] }
    ensures { OnOk result (needs.new.items
        ≡ outcomes_now (state_now core.now).fates (needs_at core.now.opening place)) }
{
    let job = &core.plan().jobs.as_slice()[place as usize];
    collect_needs(core, job.needs.as_slice(), needs)
}

fn collect_needs<M: Meaning>(
    core: &Core<M>,
    places: &[u32],
    needs: &mut Vec<Shared<Outcome>>,
) -> Result<(), AllocError>
    requires empty { needs.old.items ≡ [] }
    ensures { OnOk result (needs.new.items
        ≡ outcomes_now (state_now core.now).fates places.now) }
{
    for need in places {
        if let Some(outcome) = built(core, *need) {
            needs.push(outcome.clone()?)?;
        }
    }
    Ok(())
}

// The outcome of a place that is built.
fn built<M: Meaning>(core: &Core<M>, place: u32) -> Option<&Shared<Outcome>>
    ensures { option_copied result ≡ built_at (state_now core.now).fates place }
{
    match core.fate(place)? {
        Fate::Built(outcome) => Some(outcome),
        _ => None,
    }
}
