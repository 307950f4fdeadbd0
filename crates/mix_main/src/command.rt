// The commands, and the words that name them.
ghost use Rattle.std.specs.Prelude.{◌≡◌, map, string_bytes, Ok, IfOk, IsTrue};
ghost use Rattle.mx_base.specs.AppName.{is_app_name};
ghost use Rattle.mx_base.specs.Blame.{Answers};
ghost use Rattle.mix_main.specs.Blame.{blame_of};
ghost use Rattle.mix_main.specs.Words.{command_of, alone, dev};

use mx_base::{AppName, NameError};
use std::alloc::{AllocError, Global};

/// What the program can be asked for.
#[derive(Drop)]
pub enum Command {
    /// The names of the commands.
    Help,
    /// Compiles the dependencies that the environment reaches.
    Compile { env: AppName },
}

/// Why words are no command.
#[derive(Drop)]
pub enum WordsError {
    /// The place, from 0, of the first word with which no command's words begin, or the number of
    /// words where some are wanting.
    Refused { at: u64 },
    OutOfMemory,
}

/// The command that the words name.
///
/// # Errors
///
/// `Refused` exactly where the words are no command's. `OutOfMemory` says nothing of them.
pub fn read_words(alloc: Global, words: &[String]) -> Result<Command, WordsError>
    ensures { Answers blame_of result (λ answer. answer
        ≡ command_of (map (λ word. string_bytes word) words.now)) }
{
    let Some((first, rest)) = words.split_first() else {
        return Err(WordsError::Refused { at: 0 });
    };
    match first.as_str() {
        "help" => alone(Command::Help, rest),
        "deps.compile" => compile_alone(alloc, rest),
        _ => Err(WordsError::Refused { at: 0 }),
    }
}

fn compile_alone(alloc: Global, rest: &[String]) -> Result<Command, WordsError>
    ensures { Answers blame_of result (λ answer. answer
        ≡ alone (Command.Compile dev) (map (λ word. string_bytes word) rest.now)) }
{
    match name(alloc, b"dev") {
        Ok(env) => alone(Command::Compile { env }, rest),
        Err(AllocError) => Err(WordsError::OutOfMemory),
    }
}

/// The name that a text spells which is one.
pub(crate) fn name(alloc: Global, text: &[u8]) -> Result<AppName, AllocError>
    requires { IsTrue (is_app_name text.now) }
    ensures { IfOk result (λ name. name ≡ text.now) }
{
    match AppName::of(alloc, text) {
        Ok(name) => Ok(name),
        Err(NameError::OutOfMemory) => Err(AllocError),
        Err(NameError::Empty) => unreachable!(),
        Err(NameError::TooLong) => unreachable!(),
        Err(NameError::BadByte { .. }) => unreachable!(),
    }
}

// No word follows.
fn alone(command: Command, rest: &[String]) -> Result<Command, WordsError>
    ensures { result ≡ alone command (map (λ word. string_bytes word) rest.now) }
{
    if rest.is_empty() {
        Ok(command)
    } else {
        Err(WordsError::Refused { at: 1 })
    }
}
