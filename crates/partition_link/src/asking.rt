// Asking for a job over a link.
ghost use Rattle.std.specs.Prelude.{◌≡◌, IfOk};
ghost use Rattle.partition_link.specs.Channel.{channel_of};
ghost use Rattle.partition_link.specs.Run.{Asks, asked, number_in, verdict_on};

use crate::hearing::{HearFault, receive_frame};
use compile_model::{Job, Verdict};
use mx_base::AppName;
use partition_face::{Link, RunFault};
use partition_frames::{Frame, FrameReader, may_be_written, write_frame};
use std::alloc::{AllocError, Global};

// How many numbers there are.
const NUMBERS: u64 = 0x1_0000_0000;

/// What is asked in the run of this count, for a job of an environment.
pub(crate) fn question(
    alloc: Global,
    runs: u64,
    env: &AppName,
    job: &Job,
) -> Result<Frame, AllocError>
    ensures { IfOk result (λ question. question ≡ asked runs env.now job.now) }
{
    Ok(Frame::Job {
        number: (runs % NUMBERS) as u32,
        env: env.clone()?,
        app: job.app.clone()?,
        options: job.options.clone()?,
        how: job.how.clone()?,
        system_env: job.system_env.clone()?,
        dir: job.dir.clone()?,
        needs: job.need_apps.clone()?,
    })
}

/// Sends a question and waits for the verdict on its job.
pub(crate) fn ask<L: Link>(
    alloc: Global,
    link: &mut L,
    reader: &mut FrameReader,
    question: &Frame,
) -> Result<Verdict, RunFault>
    ensures { Asks question.now (channel_of (L.known link.old) reader.old)
        (channel_of (L.known link.new) reader.new) result }
{
    if !may_be_written(question) || reader.len() > 0 {
        return Err(RunFault::Died);
    }
    let bytes = write_frame(alloc, question)?;
    if link.send(bytes.as_slice()).is_err() {
        return Err(RunFault::Died);
    }
    verdict_on(number_in(question), receive_frame(alloc, link, reader))
}

// The number of a job's frame.
fn number_in(question: &Frame) -> u32
    ensures { result ≡ number_in question.now }
{
    match question {
        Frame::Job { number, .. } => *number,
        _ => 0,
    }
}

// What was heard, as the verdict on the job of a number: all else is death.
fn verdict_on(number: u32, heard: Result<Frame, HearFault>) -> Result<Verdict, RunFault>
    ensures { result ≡ verdict_on number heard }
{
    match heard {
        Ok(
            Frame::Verdict {
                number: answered,
                status,
                text,
            },
        ) if answered == number => Ok(Verdict { status, text }),
        Ok(_) => Err(RunFault::Died),
        Err(HearFault::OutOfMemory) => Err(RunFault::OutOfMemory),
        Err(_) => Err(RunFault::Died),
    }
}
