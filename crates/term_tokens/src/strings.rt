// Strings between quotes, and their escapes.
ghost use Rattle.std.specs.Prelude.{◌≡◌, Err, ◌+◌, ◌++◌, ◌<◌, ◌≤◌, IsTrue, IfOk, IfSome, OnOk, length, option_map};
ghost use Rattle.std.specs.Str.Parse.{digits_value};
ghost use Rattle.term_tokens.specs.Lexed.{LexedBy, broken, spelt_at, stuck_at, stopped, is_no_key, quoted_stop, is_heredoc, no_quoted_key, closed_lexed, string_stop, string_lexed};
ghost use Rattle.term_tokens.specs.Lexing.{after_colon, escape_at, byte_escape_at, scalar_of, scalar_only, spelled, hex_len, after_escape, next_at, utf8_only};
ghost use Rattle.term_tokens.specs.Strings.{are_hex, letter_escape};

use crate::bytes::{is_digit, is_utf8, opens_interpolation};
use crate::cause::{Feature, TermCause};
use crate::expected::Expected;
use crate::fault::Fault;
use crate::names::{after_colon, cut_off, stray_colon};
use crate::stuck::stuck;
use crate::token::Token;
use mx_base::{Bytes, Text};
use std::alloc::{AllocError, Global};

/// What an escape spells.
#[derive(Clone, Copy)]
pub enum Spelled {
    Byte(u8),
    Scalar(char),
}

/// A quoted atom: the text from its opening quote on, and after it.
pub fn quoted_atom<'a>(
    alloc: Global,
    text: &'a [u8],
    inside: &'a [u8],
) -> Result<(Token, &'a [u8]), Fault>
    ensures { LexedBy (λ found. (found.0, found.1.now)) result
        (quoted_stop text.now (spelt_at inside.now).0 (spelt_at inside.now).1
        (stuck_at inside.now)) }
{
    let (bytes, rest) = spelt(alloc, inside)?;
    match rest {
        [] => stopped(alloc, inside, false, rest, TermCause::Unclosed),
        [b'"', after @ ..] => match utf8_text(bytes) {
            Some(name) => Ok((Token::Atom(name), after)),
            None => Err(Fault::before(text, TermCause::BadUtf8)),
        },
        [byte, ..] => stopped(alloc, inside, false, rest, broken(*byte)),
    }
}

/// A string or a keyword's quoted key: the text from its opening quote on, and after it.
pub fn string<'a>(
    alloc: Global,
    text: &'a [u8],
    inside: &'a [u8],
    expected: Expected,
) -> Result<(Token, &'a [u8]), Fault>
    ensures { LexedBy (λ found. (found.0, found.1.now)) result
        (string_lexed expected text.now inside.now) }
{
    if !(expected.term || expected.key) {
        Err(Fault::before(text, TermCause::Unexpected))
    } else if expected.term && is_heredoc(inside) {
        Err(Fault::before(text, TermCause::Unsupported(Feature::Heredoc)))
    } else {
        quoted(alloc, text, inside, expected)
    }
}

/// The same where a string or a quoted key may begin and no heredoc does.
fn quoted<'a>(
    alloc: Global,
    text: &'a [u8],
    inside: &'a [u8],
    expected: Expected,
) -> Result<(Token, &'a [u8]), Fault>
    ensures { LexedBy (λ found. (found.0, found.1.now)) result
        (string_stop expected text.now (spelt_at inside.now).0 (spelt_at inside.now).1
        (stuck_at inside.now)) }
{
    let (bytes, rest) = spelt(alloc, inside)?;
    match rest {
        [] => stopped(alloc, inside, expected.term, rest, TermCause::Unclosed),
        [b'"', after @ ..] if is_no_key(&bytes, after, expected) => {
            stopped(alloc, inside, expected.term, rest, TermCause::Unexpected)
        }
        [b'"', after @ ..] => closed(text, bytes, after, expected),
        [byte, ..] => stopped(alloc, inside, expected.term, rest, broken(*byte)),
    }
}

/// Two quotes after the first one.
fn is_heredoc(text: &[u8]) -> bool
    ensures { result ≡ is_heredoc text.now }
{
    match text {
        [b'"', b'"', ..] => true,
        _ => false,
    }
}

/// Why a string or words stop before their end.
pub fn broken(byte: u8) -> TermCause
    ensures { result ≡ broken byte }
{
    if byte == b'\\' {
        TermCause::BadEscape
    } else {
        TermCause::Unsupported(Feature::Interpolation)
    }
}

/// The fault where quotes stop before the rest, or an earlier one where what stands between them can no more become
/// UTF-8 and `any` bytes may not stand there.
fn stopped<'a>(
    alloc: Global,
    inside: &'a [u8],
    any: bool,
    rest: &'a [u8],
    cause: TermCause,
) -> Result<(Token, &'a [u8]), Fault>
    ensures { LexedBy (λ found. (found.0, found.1.now)) result
        (stopped any (stuck_at inside.now) (Err (rest.now, cause))) }
{
    if any {
        return Err(Fault::before(rest, cause));
    }
    match stuck(alloc, inside)? {
        Some(place) => Err(Fault::before(place, TermCause::Unexpected)),
        None => Err(Fault::before(rest, cause)),
    }
}

/// A string before the rest where only a key may begin, that can be none.
fn is_no_key(bytes: &Bytes, rest: &[u8], expected: Expected) -> bool
    ensures { result ≡ is_no_key expected bytes.now (after_colon rest.now) }
{
    match after_colon(rest) {
        Some(_) => false,
        None => !(expected.term || is_utf8(bytes.as_slice())),
    }
}

/// A string that is closed before the rest.
fn closed<'a>(
    text: &'a [u8],
    bytes: Bytes,
    rest: &'a [u8],
    expected: Expected,
) -> Result<(Token, &'a [u8]), Fault>
    ensures { LexedBy (λ found. (found.0, found.1.now)) result
        (closed_lexed expected text.now bytes rest.now (after_colon rest.now)) }
{
    match after_colon(rest) {
        Some(after) if expected.key => match utf8_text(bytes) {
            Some(key) => Ok((Token::Key(key), after)),
            None => Err(Fault::before(text, TermCause::BadUtf8)),
        },
        _ => no_key(bytes, rest, expected),
    }
}

/// A string that is no keyword's key, before the rest.
fn no_key<'a>(bytes: Bytes, rest: &'a [u8], expected: Expected) -> Result<(Token, &'a [u8]), Fault>
    ensures { LexedBy (λ found. (found.0, found.1.now)) result
        (no_quoted_key expected bytes rest.now) }
{
    match rest {
        [b':', after @ ..] if expected.key && is_utf8(bytes.as_slice()) => Err(cut_off(after)),
        [b':', ..] => Err(stray_colon(rest, expected)),
        _ if expected.term => Ok((Token::Str(bytes), rest)),
        _ => Err(cut_off(rest)),
    }
}

/// The bytes as a text, where they are UTF-8.
#[tactic(auto, using(crate::proofs::StringParts::utf8_kept, crate::proofs::StringParts::utf8_refused))]
fn utf8_text(bytes: Bytes) -> Option<Text>
    ensures { option_map (λ text. text) result ≡ utf8_only bytes }
{
    match str::from_utf8(bytes.as_slice()) {
        Ok(_) => Some(Text::from_vec(bytes.into_vec())),
        Err(_) => None,
    }
}

/// The bytes that a string spells, after its opening quote, up to where it spells nothing more, and the text from
/// there on.
#[tactic(auto, using(crate::proofs::StringLemmas::spelt_all))]
fn spelt(alloc: Global, text: &[u8]) -> Result<(Bytes, &[u8]), AllocError>
    ensures { IfOk result (λ found. (found.0, found.1.now) ≡ spelt_at text.now) }
{
    let mut bytes = Vec::new(alloc);
    let mut rest = text;
    while let Some((value, after)) = next(rest) {
        push(&mut bytes, value)?;
        rest = after;
    }
    Ok((Bytes::from_vec(bytes), rest))
}

/// What the first byte or escape of a string's inside spells, and the text after it.
pub fn next(text: &[u8]) -> Option<(Spelled, &[u8])>
    ensures value { option_map (λ found. (spelled found.0, found.1.now)) result ≡ next_at text.now }
    ensures shorter { IfSome result (λ found. length found.1.now < length text.now) }
{
    match text {
        [] | [b'"', ..] => None,
        [b'\\', word @ ..] => after_escape(word),
        [byte, after @ ..] if opens_interpolation(*byte, after) => None,
        [byte, after @ ..] => Some((Spelled::Byte(*byte), after)),
    }
}

/// What the escape after a backslash spells, and the text after it.
fn after_escape(text: &[u8]) -> Option<(Spelled, &[u8])>
    ensures value { option_map (λ found. (spelled found.0, found.1.now)) result
        ≡ after_escape (escape_at text.now) text.now }
    ensures shorter { IfSome result (λ found. length found.1.now ≤ length text.now) }
{
    let (value, len) = escape(text)?;
    Some((value, text.split_at(len).1))
}

pub fn push(bytes: &mut Vec<u8>, value: Spelled) -> Result<(), AllocError>
    ensures { OnOk result (bytes.new.items ≡ bytes.old.items ++ spelled value) }
{
    match value {
        Spelled::Byte(byte) => Ok(bytes.push(byte)?),
        Spelled::Scalar(scalar) => {
            bytes.extend_from_slice(scalar.encode_utf8(&mut [0; 4]).as_bytes())
        }
    }
}

/// What the escape after a backslash spells, and how many bytes it has.
fn escape(text: &[u8]) -> Option<(Spelled, usize)>
    ensures value { option_map (λ found. (spelled found.0, found.1)) result ≡ escape_at text.now }
    ensures within { IfSome result (λ found. found.1 ≤ length text.now) }
{
    match text {
        [b'x', digits @ ..] => byte_escape(digits),
        [b'u', b'{', digits @ ..] => scalar_escape(digits),
        [letter, ..] => Some((Spelled::Byte(letter_escape(*letter)?), 1)),
        [] => None,
    }
}

/// The byte that a letter after a backslash stands for.
fn letter_escape(letter: u8) -> Option<u8>
    ensures { result ≡ letter_escape letter }
{
    match letter {
        b'n' => Some(b'\n'),
        b'r' => Some(b'\r'),
        b't' => Some(b'\t'),
        b's' => Some(b' '),
        b'0' => Some(0),
        b'e' => Some(0x1B),
        b'"' | b'\\' | b'#' => Some(letter),
        _ => None,
    }
}

/// The byte of two hexadecimal digits after `x`.
fn byte_escape(text: &[u8]) -> Option<(Spelled, usize)>
    ensures value { option_map (λ found. (spelled found.0, found.1)) result
        ≡ byte_escape_at text.now }
    ensures within { IfSome result (λ found. found.1 ≤ 1 + length text.now) }
{
    match text {
        [high, low, ..] => {
            let high = char::from(*high).to_digit(16)?;
            let low = char::from(*low).to_digit(16)?;
            Some((Spelled::Byte((high * 16 + low) as u8), 3))
        }
        _ => None,
    }
}

/// The scalar value of one to six hexadecimal digits before `}`, after `u{`.
#[tactic(auto, using(crate::proofs::StringParts::hex_digits))]
fn scalar_escape(text: &[u8]) -> Option<(Spelled, usize)>
    ensures value { option_map (λ found. (spelled found.0, found.1)) result
        ≡ scalar_of (hex_len text.now) text.now }
    ensures within { IfSome result (λ found. found.1 ≤ 2 + length text.now) }
{
    let len = hex_len(text);
    if len == 0 || 6 < len {
        return None;
    }
    let (digits, rest) = text.split_at(len);
    match rest {
        [b'}', ..] => Some((Spelled::Scalar(scalar(digits)?), len + 3)),
        _ => None,
    }
}

/// The scalar value that the digits write.
#[tactic(auto, using(crate::proofs::NumberLemmas::hex_utf8))]
fn scalar(digits: &[u8]) -> Option<char>
    requires hex { IsTrue (are_hex digits.now) }
    requires some { 0 < length digits.now }
    ensures { result ≡ scalar_only (digits_value 16 digits.now) }
{
    let value = match str::from_utf8(digits) {
        Ok(text) => u32::from_str_radix(text, 16),
        Err(_) => unreachable!(),
    };
    match value {
        Ok(value) => char::from_u32(value),
        Err(_) => None,
    }
}

/// How many hexadecimal digits stand at the front.
fn hex_len(text: &[u8]) -> usize
    ensures value { result ≡ hex_len text.now }
    ensures within { result ≤ length text.now }
{
    for (len, byte) in text.iter().enumerate() {
        if !is_digit(*byte, 16) {
            return len;
        }
    }
    text.len()
}
