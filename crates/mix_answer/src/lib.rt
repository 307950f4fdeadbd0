//! What a command comes to, before anything is written: a status and a text, or why it stopped.
//!
//! A command knows no sink. It comes to an answer, which `say` writes; the status that then stands is the program's.
//! Every command stands on this crate, so each status has one number and each line of a fault one spelling.
#![tactic(auto)]

mod answer;
mod refusal;
mod saying;
mod status;
mod stop;

pub use answer::Answer;
pub use refusal::refuse;
pub use saying::say;
pub use status::Status;
pub use stop::Stop;
