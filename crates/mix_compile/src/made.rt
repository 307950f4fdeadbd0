// What a build comes to.
ghost use Rattle.std.specs.Prelude.{◌≡◌, [], None, IfOk, IsOk};
ghost use Rattle.mix_answer.specs.Texts.{died_line};
ghost use Rattle.mix_compile.specs.Making.{ComesBy};

use compile_model::Fate;
use mix_answer::{Answer, Status, Stop};
use mx_base::push_decimal;
use partition_core::Event;
use partition_crew::{BuildFault, One};
use std::alloc::{AllocError, Global};

/// What a build comes to: the fate of each place, or what the command ends with in their place, and what happened.
#[derive(Drop)]
pub(crate) struct Made {
    pub(crate) fates: Result<Vec<Fate>, Result<Answer, Stop>>,
    pub(crate) history: Vec<Event>,
}

/// What is said where the one partition died.
pub fn died_text(alloc: Global) -> Result<Vec<u8>, AllocError>
    ensures { IfOk result (λ text. text.items ≡ died_line 1) }
{
    let mut text = Vec::from_slice(alloc, b"mixc: ")?;
    text.extend_from_slice(b"no partition left, ")?;
    push_decimal(alloc, &mut text, 1)?;
    text.extend_from_slice(b" died")?;
    text.extend_from_slice(b"\n")?;
    Ok(text)
}

impl Made {
    /// There was nothing to build.
    pub(crate) fn of_nothing(alloc: Global) -> Made
        ensures fates { IfOk result.fates (λ fates. fates.items ≡ []) }
        ensures some { IsOk result.fates }
        ensures history { result.history.items ≡ [] }
    {
        Made {
            fates: Ok(Vec::new(alloc)),
            history: Vec::new(alloc),
        }
    }

    /// What one partition's build comes to, with the text that is said of its death.
    pub(crate) fn of(alloc: Global, one: One, died: Vec<u8>) -> Made
        ensures fates { ComesBy one.fault one.fates.items died.items result.fates }
        ensures history { result.history.items ≡ one.history.items }
    {
        let One {
            fates,
            history,
            fault,
        } = one;
        let fates = fates_by(alloc, fault, fates, died);
        Made { fates, history }
    }
}

// The fates, or what the command ends with by the fault.
fn fates_by(
    alloc: Global,
    fault: Option<BuildFault>,
    fates: Vec<Option<Fate>>,
    died: Vec<u8>,
) -> Result<Vec<Fate>, Result<Answer, Stop>>
    ensures { ComesBy fault fates.items died.items result }
{
    match fault {
        None => all_fates(alloc, fates),
        Some(BuildFault::TreeFault) => Err(Err(Stop::Tree)),
        Some(BuildFault::OutOfMemory) => Err(Err(Stop::Memory)),
        Some(BuildFault::NoPartitionLeft { .. }) => Err(Ok(Answer {
            status: Status::Died,
            text: died,
        })),
    }
}

// The fates that there are.
fn all_fates(alloc: Global, fates: Vec<Option<Fate>>) -> Result<Vec<Fate>, Result<Answer, Stop>>
    ensures { ComesBy None fates.items [] result }
{
    let mut all = Vec::new(alloc);
    for fate in fates {
        if let Some(fate) = fate {
            let Ok(()) = all.push(fate) else {
                return Err(Err(Stop::Memory));
            };
        }
    }
    Ok(all)
}
