// Reading the words of the command line.
ghost use Rattle.std.specs.Prelude.{◌≡◌, map, string_bytes};
ghost use Rattle.mx_base.specs.Blame.{Computes};
ghost use Rattle.mix_words.specs.Reading.{IsBehind, IsReading, blame_of, refused_at};

use crate::command::Command;
use crate::error::{Stop, WordsError};
use crate::reader::Reader;
use crate::verb::Verb;
use std::alloc::Global;

/// The command that the words mean.
///
/// # Errors
///
/// `Refused` exactly where the words mean none: at the place of the first word with which no command's words begin, or
/// at their number where some are wanting. `OutOfMemory` says nothing of them.
pub fn read_words(alloc: Global, words: &[String]) -> Result<Command, WordsError>
    ensures { Computes blame_of result (IsReading (map (λ word. string_bytes word) words.now)) }
{
    let Some((first, rest)) = words.split_first() else {
        return Err(WordsError::Refused { at: 0 });
    };
    let Some(verb) = Verb::named(first.as_str()) else {
        return Err(WordsError::Refused { at: 0 });
    };
    match read_pieces(alloc, verb, rest) {
        Ok(command) => Ok(command),
        Err(WordsError::Refused { at }) => Err(WordsError::Refused { at: at + 1 }),
        Err(WordsError::OutOfMemory) => Err(WordsError::OutOfMemory),
    }
}

// What the words behind a command's name make of it.
fn read_pieces(alloc: Global, verb: Verb, words: &[String]) -> Result<Command, WordsError>
    ensures { Computes blame_of result (IsBehind verb (map (λ word. string_bytes word) words.now)) }
{
    let mut reader = Reader::new(alloc, verb);
    for (at, word) in words.iter().enumerate() {
        reader = match reader.with(alloc, word.as_str()) {
            Ok(reader) => reader,
            Err(stop) => return Err(refused(stop, at)),
        };
    }
    match reader.finish(alloc) {
        Ok(command) => Ok(command),
        Err(stop) => Err(refused(stop, words.len())),
    }
}

fn refused(stop: Stop, at: usize) -> WordsError
    ensures { result ≡ refused_at stop at }
{
    match stop {
        Stop::Refused => WordsError::Refused { at: at as u64 },
        Stop::OutOfMemory => WordsError::OutOfMemory,
    }
}
