// The first token of a text.
ghost use Rattle.std.specs.Prelude.{◌≡◌, ◌≤◌, ◌<◌, length, IfOk};
ghost use Rattle.unit_lang.specs.Gives.{GivesBy};
ghost use Rattle.unit_lang.specs.Lexing.{word_len, sign, word_at, first_token, front_word, after_word};

use crate::bytes::is_word_byte;
use crate::error::UnitCause;
use crate::token::Token;
use mx_base::Text;
use std::alloc::Global;

/// The token that a text begins with, and the text after it.
pub(crate) fn first_token(alloc: Global, text: &[u8]) -> Result<(Token, &[u8]), UnitCause>
    ensures { GivesBy (λ found. (found.0, found.1.now)) result (first_token text.now) }
{
    match text {
        [] => Err(UnitCause::BadLine),
        [byte, rest @ ..] => match sign(*byte) {
            Some(token) => Ok((token, rest)),
            None => word(alloc, text),
        },
    }
}

/// The tokens of one byte.
fn sign(byte: u8) -> Option<Token>
    ensures { result ≡ sign byte }
{
    match byte {
        b'=' => Some(Token::Equals),
        b'+' => Some(Token::Plus),
        b'-' => Some(Token::Minus),
        b'*' => Some(Token::Star),
        b'(' => Some(Token::Open),
        b')' => Some(Token::Close),
        _ => None,
    }
}

/// The word at the front, as long as it can be.
fn word(alloc: Global, text: &[u8]) -> Result<(Token, &[u8]), UnitCause>
    ensures { GivesBy (λ found. (found.0, found.1.now)) result (word_at text.now) }
{
    let len = word_len(text);
    if len == 0 {
        return Err(UnitCause::BadLine);
    }
    let (bytes, rest) = text.split_at(len);
    Ok((Token::Word(Text::from_slice(alloc, bytes)?), rest))
}

/// The word at the front, empty where there is none, and what follows it.
pub(crate) fn front_word(text: &[u8]) -> (&[u8], &[u8])
    ensures word { result.0.now ≡ front_word text.now }
    ensures after { result.1.now ≡ after_word text.now }
{
    text.split_at(word_len(text))
}

/// How many bytes the word at the front has: 0 where there is none.
fn word_len(text: &[u8]) -> usize
    ensures value { result ≡ word_len text.now }
    ensures within { result ≤ length text.now }
{
    for (len, byte) in text.iter().enumerate() {
        if !is_word_byte(*byte) {
            return len;
        }
    }
    text.len()
}
