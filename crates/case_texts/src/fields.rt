// The texts of a case.

use hex::FromHexError;
use std::alloc::{AllocError, AllocFailed, Global};
use std::str;

/// Why a case has no answer.
#[derive(Drop)]
pub enum Fault {
    /// The line is no case.
    Form,
    Memory,
}

impl From<AllocError> for Fault {
    fn from(_: AllocError) -> Fault {
        Fault::Memory
    }
}

impl<T: Drop> From<AllocFailed<T>> for Fault {
    fn from(_: AllocFailed<T>) -> Fault {
        Fault::Memory
    }
}

impl From<FromHexError> for Fault {
    fn from(error: FromHexError) -> Fault {
        match error {
            FromHexError::OutOfMemory => Fault::Memory,
            _ => Fault::Form,
        }
    }
}

/// The texts that a line's fields spell.
pub(crate) fn fields_of(alloc: Global, line: &str) -> Result<Vec<Vec<u8>>, Fault> {
    let mut texts = Vec::new(alloc);
    for field in line.split(' ') {
        texts.push(text_of(alloc, field)?)?;
    }
    Ok(texts)
}

/// The text of a field: pieces joined by `+`, or `-` for the empty text.
fn text_of(alloc: Global, field: &str) -> Result<Vec<u8>, Fault> {
    let mut text = Vec::new(alloc);
    if field != "-" {
        for piece in field.split('+') {
            push_piece(alloc, &mut text, piece)?;
        }
    }
    Ok(text)
}

/// Adds a piece: digits; `N*` before them for so many times the text; `N#` for the numbers below N, each before the text.
fn push_piece(alloc: Global, text: &mut Vec<u8>, piece: &str) -> Result<(), Fault> {
    let (times, digits) = piece.split_once('*').unwrap_or(("1", piece));
    let (numbers, digits) = digits.split_once('#').unwrap_or(("", digits));
    let is_numbered = !numbers.is_empty();
    let count = number_of(if is_numbered { numbers } else { times })?;
    let bytes = hex::decode(alloc, digits)?;
    for number in 0..count {
        if is_numbered {
            let number = format!(in alloc; "{number}")?;
            text.extend_from_slice(number.as_bytes())?;
        }
        text.extend_from_slice(bytes.as_slice())?;
    }
    Ok(())
}

/// A number that is written in decimal digits.
pub fn number_of(text: &str) -> Result<u32, Fault> {
    match text.parse::<u32>() {
        Ok(number) => Ok(number),
        Err(_) => Err(Fault::Form),
    }
}

/// A text of a case that is UTF-8.
pub fn word(text: &[u8]) -> Result<&str, Fault> {
    match str::from_utf8(text) {
        Ok(word) => Ok(word),
        Err(_) => Err(Fault::Form),
    }
}
