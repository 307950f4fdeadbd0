// The limits of what a job may have.
ghost use Rattle.std.specs.Prelude.{◌≡◌, ◌+◌, ◌<◌, ◌≤◌, ◌^◌, ◌↔◌, map, sum, IfNone, IfSome, IsTrue};
ghost use Rattle.compile_model.specs.Planned.{most_sent, sent, sent_size, sent_variable, words_of};
ghost use Rattle.build_plan.specs.Sources.{bytes_in};

use compile_model::{How, Job};
use mx_base::{File, Text, Variable};

/// How many jobs a plan has at most.
pub(crate) const MOST_JOBS: usize = 4_096;

/// How many bytes the sources of a dependency have at most.
pub(crate) const MOST_BYTES: usize = 67_108_864;

/// How many bytes the sources of a plan have at most.
pub(crate) const MOST_PLAN_BYTES: usize = 536_870_912;

const MOST_SENT: usize = 8_388_608;

/// How many bytes files have together.
pub(crate) fn bytes_in(files: &[File]) -> usize
    requires { bytes_in files.now < 2 ^ 64 }
    ensures { result ≡ bytes_in files.now }
{
    let mut total = 0;
    for file in files {
        total += file.bytes.as_slice().len();
    }
    total
}

/// Whether what is sent of a job is within the limit.
pub(crate) fn can_be_sent(job: &Job) -> bool
    ensures { IsTrue result ↔ (sent_size job.now ≤ most_sent) }
{
    room_after(job).is_some()
}

// What is left of the limit after a job, none where it is past that. The same of its parts.
fn room_after(job: &Job) -> Option<usize>
    ensures left { IfSome result (λ left. left + sent_size job.now ≡ most_sent) }
    ensures past { IfNone result (most_sent < sent_size job.now) }
{
    let room = after_text(MOST_SENT, job.options.as_slice())?;
    let room = after_how(room, &job.how)?;
    let room = after_variables(room, job.system_env.as_slice())?;
    after_text(room, job.dir.as_str().as_bytes())
}

fn after_text(room: usize, text: &[u8]) -> Option<usize>
    ensures left { IfSome result (λ left. left + sent text.now ≡ room) }
    ensures past { IfNone result (room < sent text.now) }
{
    room.checked_sub(text.len())?.checked_sub(4)
}

fn after_how(room: usize, how: &How) -> Option<usize>
    ensures left { IfSome result (λ left. left + sum (map sent (words_of how.now)) ≡ room) }
    ensures past { IfNone result (room < sum (map sent (words_of how.now))) }
{
    match how {
        How::Program(words) => after_words(room, words.as_slice()),
        How::Nothing | How::Unit => Some(room),
    }
}

fn after_words(room: usize, words: &[Text]) -> Option<usize>
    ensures left { IfSome result (λ left. left + sum (map sent words.now) ≡ room) }
    ensures past { IfNone result (room < sum (map sent words.now)) }
{
    let mut room = room;
    for word in words {
        room = after_text(room, word.as_slice())?;
    }
    Some(room)
}

fn after_variables(room: usize, variables: &[Variable]) -> Option<usize>
    ensures left { IfSome result (λ left. left + sum (map sent_variable variables.now) ≡ room) }
    ensures past { IfNone result (room < sum (map sent_variable variables.now)) }
{
    let mut room = room;
    for variable in variables {
        room = after_variable(room, variable)?;
    }
    Some(room)
}

fn after_variable(room: usize, variable: &Variable) -> Option<usize>
    ensures left { IfSome result (λ left. left + sent_variable variable.now ≡ room) }
    ensures past { IfNone result (room < sent_variable variable.now) }
{
    let room = after_text(room, variable.name.as_slice())?;
    after_text(room, variable.value.as_slice())
}
