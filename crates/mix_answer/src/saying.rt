// Writing what a command came to.
ghost use Rattle.mix_answer.specs.Answer.{reply_in};
ghost use Rattle.mix_answer.specs.Says.{Says};

use crate::answer::{Answer, status_in, text_in};
use crate::status::Status;
use crate::stop::Stop;
use mx_base::Sink;

/// Writes the text of an answer, with which its status goes, or 10 where the sink fails.
pub fn say<K: Sink>(out: &mut K, answer: &Result<Answer, Stop>) -> Status
    ensures { Says (reply_in answer.now) (K.known out.old) (K.known out.new) result }
{
    match out.write(text_in(answer)) {
        Ok(()) => status_in(answer),
        Err(_) => Status::WriteFault,
    }
}
