// What a compile came to.
use mix_answer::{Answer, Status, Stop};
use partition_core::Event;

/// What a compile came to before anything was written: the status and the text that it means to end with, or why it
/// stopped, and what happened, the first event first. There are events only where a build was begun.
#[derive(Drop)]
pub struct Ended {
    pub answer: Result<Answer, Stop>,
    pub history: Vec<Event>,
}

/// How a compile ended, and what happened.
#[derive(Drop)]
pub struct Compiled {
    pub status: Status,
    pub history: Vec<Event>,
}
