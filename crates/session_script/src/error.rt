// Why a text is no script.
ghost use Rattle.std.specs.Prelude.{◌≡◌, ◌++◌, OnOk, codes};
ghost use Rattle.session_script.specs.Said.{script_said};

use elixir_terms::{TermCause, TermError};
use mx_base::{RelPath, push_decimal};
use std::alloc::{AllocError, AllocFailed, Global};

/// Why a text is no script.
#[derive(Drop)]
pub enum ScriptError {
    /// The text spells no term within the limits.
    Term(TermError),
    /// The term is no list.
    Shape,
    /// The first element that has none of the forms, counted from 0.
    Form { index: u64 },
    /// There was not enough memory. This says nothing of the text.
    OutOfMemory,
}

impl From<AllocError> for ScriptError {
    ghost use Rattle.std.specs.Prelude.{◌≡◌};
    ghost use Rattle.session_script.specs.declared.error.ScriptError.TheVariants.{OutOfMemory};

    ghost from_gives = { λ _ e. e ≡ OutOfMemory };

    fn from(_: AllocError) -> ScriptError {
        ScriptError::OutOfMemory
    }
}

impl<T: Drop> From<AllocFailed<T>> for ScriptError {
    ghost use Rattle.std.specs.Prelude.{◌≡◌};
    ghost use Rattle.session_script.specs.declared.error.ScriptError.TheVariants.{OutOfMemory};

    ghost from_gives = { λ _ e. e ≡ OutOfMemory };

    fn from(_: AllocFailed<T>) -> ScriptError {
        ScriptError::OutOfMemory
    }
}

impl From<TermError> for ScriptError {
    ghost use Rattle.std.specs.Prelude.{◌≡◌};
    ghost use Rattle.session_script.specs.Refusals.{term_refused};

    ghost from_gives = { λ error e. e ≡ term_refused error };

    fn from(error: TermError) -> ScriptError {
        match error.cause {
            TermCause::OutOfMemory => ScriptError::OutOfMemory,
            _ => ScriptError::Term(error),
        }
    }
}

impl ScriptError {
    /// Adds why the text in the file at the path is no script, for people.
    pub fn say(&self, alloc: Global, path: &RelPath, text: &mut Vec<u8>) -> Result<(), AllocError>
        ensures { OnOk result (text.new.items ≡ text.old.items ++ script_said path.now self.now) }
    {
        match self {
            ScriptError::Term(error) => {
                say_path(path, text)?;
                error.say(alloc, text)
            }
            ScriptError::Shape => {
                say_path(path, text)?;
                text.extend_from_slice(b"shape")
            }
            ScriptError::Form { index } => {
                text.extend_from_slice(b"script: ")?;
                push_decimal(alloc, text, *index)
            }
            ScriptError::OutOfMemory => text.extend_from_slice(b"out of memory"),
        }
    }
}

// The path of the file, and a colon.
fn say_path(path: &RelPath, text: &mut Vec<u8>) -> Result<(), AllocError>
    ensures { OnOk result (text.new.items ≡ text.old.items ++ path.now ++ codes ": ") }
{
    text.extend_from_slice(path.as_str().as_bytes())?;
    text.extend_from_slice(b": ")
}
