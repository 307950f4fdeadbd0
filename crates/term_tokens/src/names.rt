// Names, and the tokens that begin with one.
ghost use Rattle.std.specs.Prelude.{◌≡◌, ◌≤◌, Err, length, option_map};
ghost use Rattle.term_tokens.specs.Lexed.{LexedBy, measured, cut_off, stray_colon, is_capital, after_common, after_bare, no_key, key_lexed, bare_lexed, name_lexed, name_atom_lexed};
ghost use Rattle.term_tokens.specs.Lexing.{name_len, name_rest_len, after_colon};
ghost use Rattle.term_tokens.specs.Names.{is_bare_atom};

use crate::bytes::{is_blank, is_name_byte, is_name_mark, is_name_start};
use crate::cause::{Feature, TermCause};
use crate::expected::Expected;
use crate::fault::Fault;
use crate::token::Token;
use mx_base::Text;
use std::alloc::Global;

/// An atom's name, after its colon.
pub fn name_atom(alloc: Global, text: &[u8]) -> Result<(Token, &[u8]), Fault>
    ensures { LexedBy (λ found. (found.0, found.1.now)) result (name_atom_lexed text.now) }
{
    let (name, rest) = text.split_at(name_len(text));
    Ok((Token::Atom(Text::from_slice(alloc, name)?), rest))
}

/// A keyword's key, or an atom without a colon.
pub fn name(alloc: Global, text: &[u8], expected: Expected) -> Result<(Token, &[u8]), Fault>
    ensures { LexedBy (λ found. (found.0, found.1.now)) result (name_lexed expected text.now) }
{
    let (name, rest) = text.split_at(name_len(text));
    if expected.key {
        key(alloc, text, name, rest, expected)
    } else if expected.term {
        bare(alloc, text, name, rest, expected)
    } else {
        Err(Fault::before(text, TermCause::Unexpected))
    }
}

/// A name where a keyword's key may begin, in the text that begins with it.
fn key<'a>(
    alloc: Global,
    text: &'a [u8],
    name: &'a [u8],
    rest: &'a [u8],
    expected: Expected,
) -> Result<(Token, &'a [u8]), Fault>
    ensures { LexedBy (λ found. (found.0, found.1.now)) result
        (key_lexed expected text.now name.now rest.now (after_colon rest.now)) }
{
    match after_colon(rest) {
        Some(after) => Ok((Token::Key(Text::from_slice(alloc, name)?), after)),
        None if is_capital(text) => {
            Err(Fault::before(text, TermCause::Unsupported(Feature::Alias)))
        }
        None => no_key(alloc, name, rest, expected),
    }
}

/// A name without a keyword's colon, where a keyword's key may begin.
fn no_key<'a>(
    alloc: Global,
    name: &'a [u8],
    rest: &'a [u8],
    expected: Expected,
) -> Result<(Token, &'a [u8]), Fault>
    ensures { LexedBy (λ found. (found.0, found.1.now)) result (no_key expected name.now rest.now) }
{
    match rest {
        [b':', after @ ..] => Err(cut_off(after)),
        _ if expected.term && is_bare_atom(name) => {
            Ok((Token::Atom(Text::from_slice(alloc, name)?), rest))
        }
        _ => Err(cut_off(rest)),
    }
}

/// A name where no keyword's key may begin, in the text that begins with it.
fn bare<'a>(
    alloc: Global,
    text: &'a [u8],
    name: &'a [u8],
    rest: &'a [u8],
    expected: Expected,
) -> Result<(Token, &'a [u8]), Fault>
    ensures { LexedBy (λ found. (found.0, found.1.now)) result
        (bare_lexed expected text.now name.now rest.now) }
{
    if is_capital(text) {
        return Err(Fault::before(text, TermCause::Unsupported(Feature::Alias)));
    }
    if !is_bare_atom(name) {
        return Err(cut_off(after_bare(text)));
    }
    match rest {
        [b':', ..] => Err(stray_colon(rest, expected)),
        _ => Ok((Token::Atom(Text::from_slice(alloc, name)?), rest)),
    }
}

/// What begins before the rest can't go on so.
pub fn cut_off(rest: &[u8]) -> Fault
    ensures { measured (cut_off rest.now) ≡ Err (result.left, result.cause) }
{
    match rest {
        [] => Fault::before(rest, TermCause::Unclosed),
        _ => Fault::before(rest, TermCause::Unexpected),
    }
}

/// A colon after a whole term of the text's own, or another one that may not stand there.
pub fn stray_colon(rest: &[u8], expected: Expected) -> Fault
    ensures { measured (stray_colon expected rest.now) ≡ Err (result.left, result.cause) }
{
    if expected.outermost {
        Fault::before(rest, TermCause::TrailingText)
    } else {
        Fault::before(rest, TermCause::Unexpected)
    }
}

/// The text after the colon and the blank byte of a key.
pub fn after_colon(text: &[u8]) -> Option<&[u8]>
    ensures { option_map (λ rest. rest.now) result ≡ after_colon text.now }
{
    match text {
        [b':', blank, rest @ ..] if is_blank(*blank) => Some(rest),
        _ => None,
    }
}

fn is_capital(text: &[u8]) -> bool
    ensures { result ≡ is_capital text.now }
{
    match text {
        [byte, ..] => b'A' <= *byte && *byte <= b'Z',
        [] => false,
    }
}

/// `true`, `false` or `nil`.
pub fn is_bare_atom(name: &[u8]) -> bool
    ensures { result ≡ is_bare_atom name.now }
{
    name == b"true".as_slice() || name == b"false".as_slice() || name == b"nil".as_slice()
}

/// The text after the longest part that it begins with of `true`, `false` or `nil`.
fn after_bare(text: &[u8]) -> &[u8]
    ensures { result.now ≡ after_bare text.now }
{
    match text {
        [b't', ..] => after_common(b"true".as_slice(), text),
        [b'f', ..] => after_common(b"false".as_slice(), text),
        [b'n', ..] => after_common(b"nil".as_slice(), text),
        _ => text,
    }
}

/// The text after what it begins with as the word does.
fn after_common<'a>(word: &[u8], text: &'a [u8]) -> &'a [u8]
    ensures { result.now ≡ after_common word.now text.now }
{
    let mut rest = text;
    for letter in word {
        let [byte, after @ ..] = rest else {
            return rest;
        };
        if *byte != *letter {
            return rest;
        }
        rest = after;
    }
    rest
}

/// How many bytes the longest name has that the text begins with: 0 where it begins with none.
fn name_len(text: &[u8]) -> usize
    ensures value { result ≡ name_len text.now }
    ensures within { result ≤ length text.now }
{
    match text {
        [first, rest @ ..] if is_name_start(*first) => 1 + name_rest_len(rest),
        _ => 0,
    }
}

/// How many bytes at the front may go on a name.
fn name_rest_len(text: &[u8]) -> usize
    ensures value { result ≡ name_rest_len text.now }
    ensures within { result ≤ length text.now }
{
    for (len, byte) in text.iter().enumerate() {
        if is_name_mark(*byte) {
            return len + 1;
        }
        if !is_name_byte(*byte) {
            return len;
        }
    }
    text.len()
}
