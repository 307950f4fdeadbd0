// Lists of words, as `~w(dev test)a`.
ghost use Rattle.std.specs.Prelude.{◌≡◌, ◌++◌, ◌≤◌, ◌==◌, ◌||◌, IfOk, OnOk, length, take, drop, []};
ghost use Rattle.term_tokens.specs.Lexed.{LexedBy, words_stop, after_tilde_lexed};
ghost use Rattle.term_tokens.specs.Lexing.{inside_len, kind_of, words_from, flushed};
ghost use Rattle.term_tokens.specs.Strings.{opens_interpolation};

use crate::bytes::{is_blank, opens_interpolation};
use crate::cause::{Feature, TermCause};
use crate::fault::Fault;
use crate::strings::broken;
use crate::token::{Token, WordKind};
use mx_base::Bytes;
use sqlite_items::Items;
use std::alloc::{AllocError, Global};

/// A list of words: the text from its `~` on, and after it.
pub fn words<'a>(alloc: Global, text: &'a [u8], after: &'a [u8]) -> Result<(Token, &'a [u8]), Fault>
    ensures { LexedBy (λ found. (found.0, found.1.now)) result
        (after_tilde_lexed text.now after.now) }
{
    match after {
        [] | [b'w'] => Err(Fault {
            left: 0,
            cause: TermCause::Unclosed,
        }),
        [b'w', b'(', inside @ ..] => words_in(alloc, inside),
        _ => Err(Fault::before(text, TermCause::Unsupported(Feature::Sigil))),
    }
}

/// A list of words, after its opening parenthesis.
fn words_in(alloc: Global, text: &[u8]) -> Result<(Token, &[u8]), Fault>
    ensures { LexedBy (λ found. (found.0, found.1.now)) result
        (words_stop (take (inside_len text.now) text.now) (drop (inside_len text.now) text.now)) }
{
    let (inside, rest) = text.split_at(inside_len(text));
    match rest {
        [] => Err(Fault::before(rest, TermCause::Unclosed)),
        [b')', after @ ..] => {
            let (kind, rest) = kind_of(after);
            Ok((Token::Words(kind, cut(alloc, inside)?), rest))
        }
        [byte, ..] => Err(Fault::before(rest, broken(*byte))),
    }
}

/// How many bytes at the front may stand between the parentheses.
fn inside_len(text: &[u8]) -> usize
    ensures value { result ≡ inside_len text.now }
    ensures within { result ≤ length text.now }
{
    let mut len = 0;
    let mut rest = text;
    while let [byte, after @ ..] = rest {
        if ends_inside(*byte, after) {
            break;
        }
        len += 1;
        rest = after;
    }
    len
}

/// Whether the byte before the rest may not stand between the parentheses.
fn ends_inside(byte: u8, rest: &[u8]) -> bool
    ensures { result ≡ (byte == 41 || byte == 92 || opens_interpolation byte rest.now) }
{
    byte == b')' || byte == b'\\' || opens_interpolation(byte, rest)
}

/// What the modifier at the front says of the words, and the text after it.
fn kind_of(text: &[u8]) -> (WordKind, &[u8])
    ensures { (result.0, result.1.now) ≡ kind_of text.now }
{
    match text {
        [b's', rest @ ..] => (WordKind::Strings, rest),
        [b'a', rest @ ..] => (WordKind::Atoms, rest),
        _ => (WordKind::Strings, text),
    }
}

/// The text, cut into words at runs of blanks.
fn cut(alloc: Global, text: &[u8]) -> Result<Items<Bytes>, AllocError>
    ensures { IfOk result (λ words. words ≡ words_from [] text.now) }
{
    let mut words = Items::new(alloc);
    let mut start = 0;
    for end in 0..text.len() {
        if is_blank(text[end]) {
            push_word(alloc, &text[start..end], &mut words)?;
            start = end + 1;
        }
    }
    push_word(alloc, &text[start..], &mut words)?;
    Ok(words)
}

/// Adds a word, unless it is empty.
fn push_word(alloc: Global, word: &[u8], words: &mut Items<Bytes>) -> Result<(), AllocError>
    ensures { OnOk result (words.new ≡ words.old ++ flushed word.now []) }
{
    if word.is_empty() {
        return Ok(());
    }
    words.push(Bytes::from_slice(alloc, word)?)
}
