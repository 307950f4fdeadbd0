// What is said of a refusal.
ghost use Rattle.std.specs.Prelude.{◌≡◌};
ghost use Rattle.mx_base.specs.Blame.Blame.{Input};
ghost use Rattle.build_plan.specs.Blame.{blame_of};
ghost use Rattle.mix_answer.specs.Answer.{status_in, text_in};
ghost use Rattle.mix_answer.specs.Refusal.{TellsError, status_of};

use crate::answer::Answer;
use crate::status::Status;
use crate::stop::Stop;
use build_plan::PlanError;
use std::alloc::Global;

/// The status and the text that go with a plan that can't be had.
pub fn refuse(alloc: Global, error: &PlanError) -> Result<Answer, Stop>
    ensures { TellsError error.now (status_in result) (text_in result) }
{
    match error {
        PlanError::Read => Err(Stop::Read),
        PlanError::OutOfMemory => Err(Stop::Memory),
        _ => refused(alloc, error),
    }
}

fn refused(alloc: Global, error: &PlanError) -> Result<Answer, Stop>
    requires { blame_of error.now ≡ Input }
    ensures { TellsError error.now (status_in result) (text_in result) }
{
    let mut text = Vec::new(alloc);
    error.say(alloc, b"mixc: ", &mut text)?;
    Ok(Answer {
        status: status_of(error),
        text,
    })
}

fn status_of(error: &PlanError) -> Status
    ensures { result ≡ status_of error.now }
{
    match error {
        PlanError::Settings(_)
        | PlanError::Project { .. }
        | PlanError::TooManyRows
        | PlanError::TooLarge(_) => Status::Refused,
        PlanError::Diverged(_) | PlanError::Cycle(_) => Status::Conflict,
        PlanError::NoProject | PlanError::PathMissing { .. } | PlanError::NotLocked(_) => {
            Status::Missing
        }
        PlanError::Read => Status::ReadFault,
        PlanError::OutOfMemory => Status::OutOfMemory,
    }
}
