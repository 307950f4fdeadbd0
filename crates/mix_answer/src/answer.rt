// What a command comes to.
ghost use Rattle.std.specs.Prelude.{◌≡◌};
ghost use Rattle.mix_answer.specs.Answer.{status_in, text_in};

use crate::status::Status;
use crate::stop::Stop;

/// The status that a command means to end with, and the text that goes with it.
#[derive(Drop)]
pub struct Answer {
    pub status: Status,
    pub text: Vec<u8>,
}

/// The status of an answer, or of what stopped the command.
pub(crate) fn status_in(answer: &Result<Answer, Stop>) -> Status
    ensures { result ≡ status_in answer.now }
{
    match answer {
        Ok(answer) => answer.status,
        Err(stop) => stop.status(),
    }
}

/// The text of an answer, or the line of what stopped the command.
pub(crate) fn text_in(answer: &Result<Answer, Stop>) -> &[u8]
    ensures { result.now ≡ text_in answer.now }
{
    match answer {
        Ok(answer) => &answer.text,
        Err(stop) => stop.line(),
    }
}
