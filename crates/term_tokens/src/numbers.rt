// Integers.
ghost use Rattle.std.specs.Prelude.{◌≡◌, ◌++◌, ◌≤◌, ℕ, List, IsTrue, IfOk, false};
ghost use Rattle.std.specs.Option.{SomeIff};
ghost use Rattle.term_tokens.specs.declared.token.Token.TheVariants.{Int};
ghost use Rattle.term_tokens.specs.Lexed.{LexedBy, scanned, opens_fraction, numeral_lexed, integer_lexed};
ghost use Rattle.term_tokens.specs.Lexing.{base_of, are_signed_digits, signed_value, minus, IsNarrow};
ghost use Rattle.term_tokens.specs.Tokens.{ends_integer};

use crate::bytes::{is_digit, is_name_byte};
use crate::cause::{Feature, TermCause};
use crate::expected::Expected;
use crate::fault::Fault;
use crate::names::cut_off;
use crate::token::Token;
use std::alloc::{AllocError, Global};

/// An integer within 128 bits.
pub fn integer(alloc: Global, text: &[u8], expected: Expected) -> Result<(Token, &[u8]), Fault>
    ensures { LexedBy (λ found. (found.0, found.1.now)) result (integer_lexed expected text.now) }
{
    match text {
        _ if !expected.term => Err(Fault::before(text, TermCause::Unexpected)),
        [b'-', numeral @ ..] => signed(alloc, text, true, numeral),
        _ => signed(alloc, text, false, text),
    }
}

/// The integer that the text begins with, whose numeral a `-` stands before where it is negative.
fn signed<'a>(
    alloc: Global,
    text: &'a [u8],
    negative: bool,
    numeral: &'a [u8],
) -> Result<(Token, &'a [u8]), Fault>
    ensures { LexedBy (λ found. (found.0, found.1.now)) result
        (numeral_lexed text.now negative numeral.now) }
{
    let (base, digits) = base_of(numeral);
    let mut written = minus(alloc, negative)?;
    let (after_digit, rest) = push_digits(base, digits, &mut written)?;
    if !after_digit || !ends_integer(rest) {
        return Err(cut_off(rest));
    }
    match value(base, written.as_slice()) {
        None => Err(Fault::before(text, TermCause::NumberTooBig)),
        Some(_) if base == 10 && opens_fraction(rest) => {
            Err(Fault::before(rest, TermCause::Unsupported(Feature::Float)))
        }
        Some(n) => Ok((Token::Int(n), rest)),
    }
}

/// Whether no byte of a name goes on an integer.
fn ends_integer(text: &[u8]) -> bool
    ensures { result ≡ ends_integer text.now }
{
    match text {
        [byte, ..] => !is_name_byte(*byte),
        [] => true,
    }
}

/// `.` before a digit.
fn opens_fraction(text: &[u8]) -> bool
    ensures { result ≡ opens_fraction text.now }
{
    match text {
        [b'.', digit, ..] => digit.is_ascii_digit(),
        _ => false,
    }
}

/// The sign before the digits, as a text to which they are added.
fn minus(alloc: Global, negative: bool) -> Result<Vec<u8>, AllocError>
    ensures { IfOk result (λ written. written.items ≡ minus negative) }
{
    let mut written = Vec::new(alloc);
    if negative {
        written.push(b'-')?;
    }
    Ok(written)
}

/// The base that a numeral's first bytes say, and what follows them.
fn base_of(word: &[u8]) -> (u32, &[u8])
    ensures value { (result.0, result.1.now) ≡ base_of word.now }
    ensures least { 2 ≤ result.0 }
    ensures most { result.0 ≤ 16 }
{
    match word {
        [b'0', b'x', digits @ ..] => (16, digits),
        [b'0', b'o', digits @ ..] => (8, digits),
        [b'0', b'b', digits @ ..] => (2, digits),
        _ => (10, word),
    }
}

/// Adds the digits of a numeral, without the single `_` between them: whether a digit is the last of them, and the
/// text after them.
fn push_digits<'a>(
    base: u32,
    text: &'a [u8],
    written: &mut Vec<u8>,
) -> Result<(bool, &'a [u8]), AllocError>
    requires least { 2 ≤ base }
    requires most { base ≤ 16 }
    ensures { IfOk result (λ found. (digits : List ℕ)
        × ((found.0, digits, found.1.now) ≡ scanned base false text.now)
        × (written.new.items ≡ written.old.items ++ digits)) }
{
    let mut after_digit = false;
    let mut rest = text;
    while let [byte, after @ ..] = rest {
        if is_digit(*byte, base) {
            written.push(*byte)?;
            after_digit = true;
        } else if *byte == b'_' && after_digit {
            after_digit = false;
        } else {
            break;
        }
        rest = after;
    }
    Ok((after_digit, rest))
}

/// The number that digits of the base write, perhaps after a `-`, within 128 bits.
fn value(base: u32, written: &[u8]) -> Option<i128>
    requires least { 2 ≤ base }
    requires most { base ≤ 16 }
    requires digits { IsTrue (are_signed_digits base written.now) }
    ensures { SomeIff result (IsNarrow (Int (signed_value base written.now)))
        (signed_value base written.now) }
{
    let value = match str::from_utf8(written) {
        Ok(text) => i128::from_str_radix(text, base),
        Err(_) => unreachable!(),
    };
    match value {
        Ok(value) => Some(value),
        Err(_) => None,
    }
}
