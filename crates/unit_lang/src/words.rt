// What a word means.
ghost use Rattle.std.specs.Prelude.{◌≡◌, Some, None, pos, unwrap_or, option_map, if◌then◌else◌};
ghost use Rattle.mx_base.specs.AppName.{is_app_name};
ghost use Rattle.unit_lang.specs.Gives.{Gives};
ghost use Rattle.unit_lang.specs.Lexing.{dotted, number_of, operand, too_great, reference_of};
ghost use Rattle.unit_lang.specs.Machine.{used};

use crate::bytes::{are_digits, is_name, number_of};
use crate::error::UnitCause;
use crate::state::State;
use crate::token::Token;
use crate::unit::{Expression, Statement};
use mx_base::{AppName, NameError, Text};
use sqlite_items::Boxed;
use std::alloc::Global;

/// Whether the token is a number that is too great.
pub(crate) fn is_too_great(token: &Token) -> bool
    ensures { result ≡ too_great token.now }
{
    match token {
        Token::Word(word) => are_digits(word.as_slice()) && number_of(word.as_slice()).is_none(),
        _ => false,
    }
}

/// What a word is in an expression. 0 stands for a number that is too great: its line is refused in the end.
fn operand(alloc: Global, word: Text) -> Result<Expression, UnitCause>
    ensures { Gives result (operand word) }
{
    if are_digits(word.as_slice()) {
        let number = kept_number(word.as_slice());
        return Ok(Expression::Number(number));
    }
    if is_name(word.as_slice()) {
        return Ok(Expression::Name(word));
    }
    reference(alloc, word.as_slice())
}

/// The same in a box.
pub(crate) fn boxed_operand(alloc: Global, word: Text) -> Result<Boxed<Expression>, UnitCause>
    ensures { Gives result (operand word) }
{
    let operand = operand(alloc, word)?;
    Ok(Boxed::new(alloc, operand)?)
}

/// The number that digits stand for, or 0 where it is too great.
fn kept_number(digits: &[u8]) -> i64
    ensures { result ≡ pos (unwrap_or (number_of digits.now) 0) }
{
    match number_of(digits) {
        Some(number) => number as i64,
        None => 0,
    }
}

/// A name of another unit.
fn reference(alloc: Global, word: &[u8]) -> Result<Expression, UnitCause>
    ensures { Gives result (reference_of (dotted word.now)) }
{
    match dotted(word) {
        Some((unit, name)) if is_name(unit) && is_name(name) => Ok(Expression::Reference {
            unit: Text::from_slice(alloc, unit)?,
            name: Text::from_slice(alloc, name)?,
        }),
        _ => Err(UnitCause::BadLine),
    }
}

/// Another app's unit, which ends its line.
pub(crate) fn used(alloc: Global, word: &[u8]) -> Result<State, UnitCause>
    ensures { Gives result (used (dotted word.now)) }
{
    match dotted(word) {
        Some((app, unit)) if is_name(unit) => {
            let app = app_name(alloc, app)?;
            let unit = Text::from_slice(alloc, unit)?;
            Ok(State::Done {
                statement: Boxed::new(alloc, Statement::Use { app, unit })?,
            })
        }
        _ => Err(UnitCause::BadLine),
    }
}

/// The name of an application.
fn app_name(alloc: Global, text: &[u8]) -> Result<AppName, UnitCause>
    ensures { Gives result (if is_app_name text.now then Some text.now else None) }
{
    match AppName::of(alloc, text) {
        Ok(name) => Ok(name),
        Err(NameError::OutOfMemory) => Err(UnitCause::OutOfMemory),
        Err(_) => Err(UnitCause::BadLine),
    }
}

/// The parts of a word before and after its first dot.
fn dotted(word: &[u8]) -> Option<(&[u8], &[u8])>
    ensures { option_map (λ parts. (parts.0.now, parts.1.now)) result ≡ dotted word.now }
{
    for (at, byte) in word.iter().enumerate() {
        if *byte == b'.' {
            return Some((&word[..at], &word[at + 1..]));
        }
    }
    None
}
