// The reader of a whole unit file.
ghost use Rattle.std.specs.Prelude.{◌≡◌, ◌+◌, ◌<◌, ◌≤◌, ◌↔◌, ◌⊎◌, [], ◌∷◌, ◌++◌, ℕ, suc, List, length, IsTrue, IfErr, MatchResult, MatchOption, option_map};
ghost use Rattle.mx_base.specs.Blame.{Answers};
ghost use Rattle.mx_base.specs.Blame.Blame.{Memory};
ghost use Rattle.unit_lang.specs.Blame.{blame_of};
ghost use Rattle.unit_lang.specs.Faults.{FirstFault, HasHeading, IsRead, IsUnitless};
ghost use Rattle.unit_lang.specs.Gives.{FaultsAs};
ghost use Rattle.unit_lang.specs.Lexing.{line_len, lines_after, rest_of, rest_size};
ghost use Rattle.unit_lang.specs.Lines.{IsBlankLine, Says};
ghost use Rattle.unit_lang.specs.Reading.{BodyFaultAs, Follows, Hears, HearsFault, Refuses};
ghost use Rattle.unit_lang.specs.declared.error.UnitCause.{UnitCause as FaultCause};
ghost use Rattle.unit_lang.specs.declared.error.UnitCause.TheVariants.{OutOfMemory};
ghost use Rattle.unit_lang.specs.Spells.{Spells, Body, lines_of, longest_line};
ghost use Rattle.unit_lang.specs.declared.unit.Unit.{Unit as UnitFile};

use crate::error::{UnitCause, UnitError};
use crate::line::{heading, is_blank_line, is_unit_line, statement};
use crate::unit::{Line, Lines, Statement, Unit};
use mx_base::Text;
use std::alloc::Global;

/// The most bytes that a file has.
const LONGEST_FILE: usize = 1_048_576;

/// The most bytes that a line has.
const LONGEST_LINE: usize = 4_096;

/// Reads the unit that the whole text spells, or else tells its first fault by line.
///
/// Goes once over the text, or twice where blank lines and then one that is no `unit` line come first. Takes memory
/// for the unit and for what is open in an expression.
///
/// # Errors
///
/// The first fault. Memory runs out only from the `unit` line on: what is refused before it always is.
pub fn parse_unit(alloc: Global, text: &[u8]) -> Result<Unit, UnitError>
    ensures answer { Answers blame_of result (IsRead text.now) }
    ensures memory { IfErr result (λ error. blame_of error ≡ Memory → HasHeading text.now) }
{
    if text.len() > LONGEST_FILE {
        return Err(UnitError {
            line: 1,
            cause: UnitCause::TooLong,
        });
    }
    let mut number = 1;
    let mut rest = Some(text);
    while let Some(lines) = rest {
        let (line, after) = first_line(lines);
        if line.len() > LONGEST_LINE {
            return Err(refusal(number, lines, UnitCause::TooLong));
        }
        if let Some(name) = heading(line) {
            return unit_after(alloc, name, number, after);
        }
        if !is_blank_line(line) {
            return Err(refusal(number, lines, UnitCause::NoUnit));
        }
        number += 1;
        rest = after;
    }
    Err(UnitError {
        line: 1,
        cause: UnitCause::NoUnit,
    })
}

/// How a file is refused at a line that only blank lines come before: at line 1 where it has no `unit` line.
fn refusal(number: u32, lines: &[u8], cause: UnitCause) -> UnitError
    ensures { Refuses number (lines_of lines.now) cause result }
{
    if number > 1 && lacks_unit_line(lines) {
        return UnitError {
            line: 1,
            cause: UnitCause::NoUnit,
        };
    }
    UnitError {
        line: number,
        cause,
    }
}

/// Whether no line of a text is a `unit` line.
fn lacks_unit_line(text: &[u8]) -> bool
    ensures { IsTrue result ↔ IsUnitless (lines_of text.now) }
{
    let mut rest = Some(text);
    while let Some(lines) = rest {
        let (line, after) = first_line(lines);
        if is_unit_line(line) {
            return false;
        }
        rest = after;
    }
    true
}

/// The unit of this name, from the lines after the one with this number.
fn unit_after(
    alloc: Global,
    name: &[u8],
    number: u32,
    rest: Option<&[u8]>,
) -> Result<Unit, UnitError>
    requires room { number + rest_size (option_map (λ text. text.now) rest) < 4294967295 }
    ensures { MatchResult result
        (Follows name.now number (lines_after (option_map (λ text. text.now) rest.entry)))
        (BodyFaultAs (suc number) (lines_after (option_map (λ text. text.now) rest.entry))) }
{
    let name = match Text::from_slice(alloc, name) {
        Ok(name) => name,
        Err(_) => {
            return Err(UnitError {
                line: number,
                cause: UnitCause::OutOfMemory,
            });
        }
    };
    let lines = body(alloc, number + 1, rest)?;
    Ok(Unit {
        name,
        line: number,
        lines,
    })
}

/// What the lines from this number on say.
fn body(alloc: Global, first: u32, text: Option<&[u8]>) -> Result<Lines, UnitError>
    requires room { first + rest_size (option_map (λ lines. lines.now) text) ≤ 4294967295 }
    ensures { MatchResult result
        (Body first (lines_after (option_map (λ lines. lines.now) text.entry)))
        (BodyFaultAs first (lines_after (option_map (λ lines. lines.now) text.entry))) }
{
    let mut said = Lines::new(alloc);
    let mut number = first;
    let mut rest = text;
    while let Some(lines) = rest {
        let (line, after) = first_line(lines);
        hear(alloc, &mut said, number, line)?;
        number += 1;
        rest = after;
    }
    Ok(said)
}

/// Adds what the line with this number says.
fn hear(alloc: Global, said: &mut Lines, number: u32, line: &[u8]) -> Result<(), UnitError>
    ensures { MatchResult result
        (λ _. Hears number line.now said.old said.new) (HearsFault number line.now) }
{
    match line_said(alloc, line) {
        Ok(None) => Ok(()),
        Ok(Some(statement)) => push_line(said, Line { number, statement }),
        Err(cause) => Err(UnitError {
            line: number,
            cause,
        }),
    }
}

/// What a line after the `unit` line says.
fn line_said(alloc: Global, line: &[u8]) -> Result<Option<Statement>, UnitCause>
    ensures { MatchResult result
        (λ said. (length line.now ≤ longest_line)
        × MatchOption said (IsBlankLine line.now) (Says line.now))
        (FaultsAs line.now) }
{
    if line.len() > LONGEST_LINE {
        return Err(UnitCause::TooLong);
    }
    statement(alloc, line)
}

/// Adds a line.
fn push_line(said: &mut Lines, line: Line) -> Result<(), UnitError>
    ensures { MatchResult result
        (λ _. said.new ≡ said.old ++ line ∷ []) (λ error. error.cause ≡ OutOfMemory) }
{
    let number = line.number;
    match said.push(line) {
        Ok(()) => Ok(()),
        Err(_) => Err(UnitError {
            line: number,
            cause: UnitCause::OutOfMemory,
        }),
    }
}

/// The first line of a text, and the text after its line feed, if it has one.
fn first_line(text: &[u8]) -> (&[u8], Option<&[u8]>)
    ensures lines { lines_of text.now
        ≡ result.0.now ∷ lines_after (option_map (λ rest. rest.now) result.1) }
    ensures shorter { rest_size (option_map (λ rest. rest.now) result.1) ≤ length text.now }
{
    let (line, rest) = text.split_at(line_len(text));
    (line, after_feed(rest))
}

/// The text after a line feed, if there is one.
fn after_feed(rest: &[u8]) -> Option<&[u8]>
    ensures value { option_map (λ after. after.now) result ≡ rest_of rest.now }
    ensures shorter { rest_size (option_map (λ after. after.now) result) ≤ length rest.now }
{
    match rest {
        [] => None,
        [_, after @ ..] => Some(after),
    }
}

/// How many bytes the first line has.
fn line_len(text: &[u8]) -> usize
    ensures value { result ≡ line_len text.now }
    ensures within { result ≤ length text.now }
{
    for (len, byte) in text.iter().enumerate() {
        if *byte == b'\n' {
            return len;
        }
    }
    text.len()
}

/// No text spells two units.
pub fn one_unit()
    ensures { (text : List ℕ) (unit other : UnitFile)
        → Spells text unit → Spells text other → unit ≡ other }
{}

/// No text has two first faults.
pub fn one_fault()
    ensures { (text : List ℕ) (at other_at : ℕ) (cause other : FaultCause)
        → FirstFault text at cause → FirstFault text other_at other
        → (at ≡ other_at) × (cause ≡ other) }
{}

/// Each text spells a unit or has a first fault.
pub fn some_answer()
    ensures { (text : List ℕ) → ((unit : UnitFile) × Spells text unit)
        ⊎ ((at : ℕ) × (cause : FaultCause) × FirstFault text at cause) }
{}

/// No text both spells a unit and has a first fault.
pub fn faults_stand_apart()
    ensures { (text : List ℕ) (unit : UnitFile) (at : ℕ) (cause : FaultCause)
        → Spells text unit → FirstFault text at cause → ⊥ }
{}
