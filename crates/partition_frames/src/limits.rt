// How long frames are.
ghost use Rattle.std.specs.Prelude.{◌≡◌, ◌+◌, ◌<◌, ◌↔◌, map, sum, IfNone, IfSome, IsTrue};
ghost use Rattle.compile_model.specs.Planned.{sent, sent_variable, words_of};
ghost use Rattle.partition_frames.specs.Frame.{HasFolder, IsSmall, most};
ghost use Rattle.partition_frames.specs.Sizes.{size_of};

use crate::frame::Frame;
use crate::parsing::MOST;
use compile_model::How;
use mx_base::{AppName, Text, Variable};

/// Whether a frame may be written: its kind and body have at most 16,777,216 bytes, and the folder of a job is neither
/// the root nor in the folder of builds.
#[tactic(auto, using(crate::proofs::Lengths::size_is))]
pub fn may_be_written(frame: &Frame) -> bool
    ensures { IsTrue result ↔ (IsSmall frame.now × HasFolder frame.now) }
{
    has_folder(frame) && room_after(frame).is_some()
}

fn has_folder(frame: &Frame) -> bool
    ensures { IsTrue result ↔ HasFolder frame.now }
{
    match frame {
        Frame::Job { dir, .. } => !dir.as_str().is_empty() && !dir.is_in_build(),
        _ => true,
    }
}

// What is left of the limit behind a frame's kind and body, none where they are past that. The same of its parts.
fn room_after(frame: &Frame) -> Option<usize>
    ensures left { IfSome result (λ left. left + size_of frame.now ≡ most) }
    ensures past { IfNone result (most < size_of frame.now) }
{
    let most = MOST as usize;
    match frame {
        Frame::Hello { cookie, .. } => after_text(most - 5, cookie.as_slice()),
        Frame::Job {
            env,
            app,
            options,
            how,
            system_env,
            dir,
            needs,
            ..
        } => {
            let room = after_text(most - 18, env.as_str().as_bytes())?;
            let room = after_text(room, app.as_str().as_bytes())?;
            let room = after_text(room, options.as_slice())?;
            let room = after_how(room, how)?;
            let room = after_variables(room, system_env.as_slice())?;
            let room = after_text(room, dir.as_str().as_bytes())?;
            after_names(room, needs.as_slice())
        }
        Frame::Verdict { text, .. } => after_text(most - 9, text.as_slice()),
        Frame::Bye => Some(most - 1),
    }
}

fn after_text(room: usize, text: &[u8]) -> Option<usize>
    ensures left { IfSome result (λ left. left + sent text.now ≡ room) }
    ensures past { IfNone result (room < sent text.now) }
{
    room.checked_sub(text.len())?.checked_sub(4)
}

fn after_how(room: usize, how: &How) -> Option<usize>
    ensures left { IfSome result (λ left. left + sum (map sent (words_of how.now)) ≡ room) }
    ensures past { IfNone result (room < sum (map sent (words_of how.now))) }
{
    match how {
        How::Program(words) => after_words(room, words.as_slice()),
        How::Nothing | How::Unit => Some(room),
    }
}

fn after_words(room: usize, words: &[Text]) -> Option<usize>
    ensures left { IfSome result (λ left. left + sum (map sent words.now) ≡ room) }
    ensures past { IfNone result (room < sum (map sent words.now)) }
{
    let mut room = room;
    for word in words {
        room = after_text(room, word.as_slice())?;
    }
    Some(room)
}

fn after_names(room: usize, names: &[AppName]) -> Option<usize>
    ensures left { IfSome result (λ left. left + sum (map sent names.now) ≡ room) }
    ensures past { IfNone result (room < sum (map sent names.now)) }
{
    let mut room = room;
    for name in names {
        room = after_text(room, name.as_str().as_bytes())?;
    }
    Some(room)
}

fn after_variables(room: usize, variables: &[Variable]) -> Option<usize>
    ensures left { IfSome result (λ left. left + sum (map sent_variable variables.now) ≡ room) }
    ensures past { IfNone result (room < sum (map sent_variable variables.now)) }
{
    let mut room = room;
    for variable in variables {
        room = after_variable(room, variable)?;
    }
    Some(room)
}

fn after_variable(room: usize, variable: &Variable) -> Option<usize>
    ensures left { IfSome result (λ left. left + sent_variable variable.now ≡ room) }
    ensures past { IfNone result (room < sent_variable variable.now) }
{
    let room = after_text(room, variable.name.as_slice())?;
    after_text(room, variable.value.as_slice())
}
