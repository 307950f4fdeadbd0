// What one line says.
ghost use Rattle.std.specs.Prelude.{◌≡◌, ◌≤◌, ◌↔◌, ◌⊎◌, ℕ, List, length, IsTrue, MatchResult, MatchOption, option_map};
ghost use Rattle.unit_lang.specs.declared.error.UnitCause.TheVariants.{BadLine, OutOfMemory};
ghost use Rattle.unit_lang.specs.Gives.{FaultsAs, IsWarning};
ghost use Rattle.unit_lang.specs.Lexing.{after_warn, name_alone, title_of};
ghost use Rattle.unit_lang.specs.Lines.{IsBlankLine, IsUnitLine, IsWarnLine, Names, Says};
ghost use Rattle.unit_lang.specs.Spells.{longest_line};
ghost use Rattle.unit_lang.specs.Tokens.{without_blanks};

use crate::blanks::{before_comment, skip_blanks, trim_end};
use crate::bytes::{is_blank, is_name};
use crate::error::UnitCause;
use crate::lexer::{first_token, front_word};
use crate::progress::{Progress, fault};
use crate::unit::Statement;
use mx_base::Bytes;
use std::alloc::Global;

/// Whether the line has nothing but blanks and a comment.
pub(crate) fn is_blank_line(line: &[u8]) -> bool
    ensures { IsTrue result ↔ IsBlankLine line.now }
{
    skip_blanks(before_comment(line)).is_empty()
}

/// What a line after the first says: nothing where it is blank.
pub(crate) fn statement(alloc: Global, line: &[u8]) -> Result<Option<Statement>, UnitCause>
    requires { length line.now ≤ longest_line }
    ensures { MatchResult result
        (λ said. MatchOption said (IsBlankLine line.now) (Says line.now)) (FaultsAs line.now) }
{
    match after_warn(line) {
        Some(rest) => {
            let text = warning(alloc, rest)?;
            Ok(Some(Statement::Warn { text }))
        }
        None => statement_of(alloc, line),
    }
}

/// What the tokens of a line say: nothing where there are none.
fn statement_of(alloc: Global, line: &[u8]) -> Result<Option<Statement>, UnitCause>
    requires short { length line.now ≤ longest_line }
    requires plain { IsWarnLine line.now → ⊥ }
    ensures { MatchResult result
        (λ said. MatchOption said (IsBlankLine line.now) (Says line.now)) (FaultsAs line.now) }
{
    if is_blank_line(line) {
        return Ok(None);
    }
    let statement = said(alloc, line)?;
    Ok(Some(statement))
}

/// What the tokens of a line say.
fn said(alloc: Global, line: &[u8]) -> Result<Statement, UnitCause>
    requires short { length line.now ≤ longest_line }
    requires plain { IsWarnLine line.now → ⊥ }
    requires solid { IsBlankLine line.now → ⊥ }
    ensures { MatchResult result (Says line.now) (FaultsAs line.now) }
{
    let mut progress = Progress::first();
    let mut rest = skip_blanks(before_comment(line));
    while !rest.is_empty() {
        let (token, after) = match first_token(alloc, rest) {
            Ok(found) => found,
            Err(cause) => {
                let cause = fault(cause, progress.great);
                drop(progress);
                return Err(cause);
            }
        };
        progress = progress.advanced(alloc, token)?;
        rest = skip_blanks(after);
    }
    progress.finished(alloc)
}

/// The rest of a line after its first `warn` and a blank, where the line begins so.
fn after_warn(line: &[u8]) -> Option<&[u8]>
    ensures { option_map (λ rest. rest.now) result ≡ after_warn (without_blanks line.now) }
{
    match skip_blanks(line) {
        [b'w', b'a', b'r', b'n', blank, rest @ ..] if is_blank(*blank) => Some(rest),
        _ => None,
    }
}

/// The text of a warning: without the blanks at its ends, and not empty.
fn warning(alloc: Global, rest: &[u8]) -> Result<Bytes, UnitCause>
    ensures { MatchResult result (IsWarning rest.now)
        (λ cause. (cause ≡ OutOfMemory)
        ⊎ ((cause ≡ BadLine) × ((text : List ℕ) → IsWarning rest.now text → ⊥))) }
{
    let text = trim_end(skip_blanks(rest));
    if text.is_empty() {
        return Err(UnitCause::BadLine);
    }
    Ok(Bytes::from_slice(alloc, text)?)
}

/// The name in a `unit` line.
pub(crate) fn heading(line: &[u8]) -> Option<&[u8]>
    ensures { MatchOption result (IsUnitLine line.now → ⊥) (λ name. Names line.now name.now) }
{
    title(before_comment(line))
}

/// Whether the line is a `unit` line.
pub(crate) fn is_unit_line(line: &[u8]) -> bool
    ensures { IsTrue result ↔ IsUnitLine line.now }
{
    heading(line).is_some()
}

/// The name in a `unit` line without its comment.
fn title(text: &[u8]) -> Option<&[u8]>
    ensures { option_map (λ name. name.now) result ≡ title_of text.now }
{
    let (keyword, after) = front_word(skip_blanks(text));
    if keyword == b"unit".as_slice() {
        name_alone(skip_blanks(after))
    } else {
        None
    }
}

/// The name that a text begins with, where nothing but blanks follows.
fn name_alone(text: &[u8]) -> Option<&[u8]>
    ensures { option_map (λ name. name.now) result ≡ name_alone text.now }
{
    let (name, after) = front_word(text);
    if is_name(name) && skip_blanks(after).is_empty() {
        Some(name)
    } else {
        None
    }
}
