//! Jobs, what compiling them gives, and compiling them one after another.
#![tactic(auto)]

mod compiler;
mod echo;
mod how;
mod job;
mod outcome;
mod seq;

pub use compiler::{CompileFault, Compiler, Input, Meaning};
pub use echo::EchoCompiler;
pub use how::{How, Texts};
pub use job::{Job, Jobs, Origin, Places, Plan};
pub use outcome::{Fate, Outcome, Twin, Verdict};
pub use seq::{SeqFault, outcomes, seq_build};
