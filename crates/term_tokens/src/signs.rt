// Brackets, commas and arrows, and what is not read.
ghost use Rattle.std.specs.Prelude.{◌≡◌, ◌∷◌};
ghost use Rattle.term_tokens.specs.Lexed.{LexedBy, second_lexed, wants_sign, wanted_sign, sign_lexed};
ghost use Rattle.term_tokens.specs.Local.{is_closing};

use crate::bracket::Bracket;
use crate::cause::{Feature, TermCause};
use crate::expected::Expected;
use crate::fault::Fault;
use crate::token::{Closing, Token};

/// A bracket, a comma or an arrow, and the text after it.
pub fn sign(text: &[u8], expected: Expected) -> Result<(Token, &[u8]), Fault>
    ensures { LexedBy (λ found. (found.0, found.1.now)) result (sign_lexed expected text.now) }
{
    match text {
        [] => Err(Fault::before(text, TermCause::Unclosed)),
        [byte, ..] if !wants_sign(*byte, expected) => {
            Err(Fault::before(text, TermCause::Unexpected))
        }
        [byte, after @ ..] => wanted_sign(*byte, text, after),
    }
}

/// Whether something that begins with the byte may stand there.
fn wants_sign(byte: u8, expected: Expected) -> bool
    ensures { result ≡ wants_sign expected byte }
{
    match byte {
        b'[' | b'{' | b'%' | b'\'' | b'<' => expected.term,
        b']' => closes(expected.closing, Closing::Square),
        b'}' => closes(expected.closing, Closing::Curly),
        b',' => expected.comma,
        b'=' => expected.arrow,
        _ => false,
    }
}

fn closes(expected: Option<Closing>, closing: Closing) -> bool
    ensures { result ≡ is_closing expected closing }
{
    match (expected, closing) {
        (Some(Closing::Square), Closing::Square) => true,
        (Some(Closing::Curly), Closing::Curly) => true,
        _ => false,
    }
}

/// A sign that may stand there, with the text from it and the text after it.
fn wanted_sign<'a>(byte: u8, text: &'a [u8], after: &'a [u8]) -> Result<(Token, &'a [u8]), Fault>
    requires { text.now ≡ byte ∷ after.now }
    ensures { LexedBy (λ found. (found.0, found.1.now)) result (wanted_sign byte after.now) }
{
    match byte {
        b'[' => Ok((Token::Open(Bracket::List), after)),
        b']' => Ok((Token::Close(Closing::Square), after)),
        b'{' => Ok((Token::Open(Bracket::Tuple), after)),
        b'}' => Ok((Token::Close(Closing::Curly), after)),
        b',' => Ok((Token::Comma, after)),
        b'%' => second(b'{', Token::Open(Bracket::Map), after),
        b'=' => second(b'>', Token::Arrow, after),
        b'\'' => Err(Fault::before(text, TermCause::Unsupported(Feature::Charlist))),
        _ => match after {
            [b'<', ..] => Err(Fault::before(text, TermCause::Unsupported(Feature::Bits))),
            _ => Err(Fault::before(text, TermCause::Unexpected)),
        },
    }
}

/// The token whose second byte this is.
fn second(byte: u8, token: Token, text: &[u8]) -> Result<(Token, &[u8]), Fault>
    ensures { LexedBy (λ found. (found.0, found.1.now)) result (second_lexed byte token text.now) }
{
    match text {
        [] => Err(Fault::before(text, TermCause::Unclosed)),
        [next, after @ ..] if *next == byte => Ok((token, after)),
        _ => Err(Fault::before(text, TermCause::Unexpected)),
    }
}
