// The first token of a text.
ghost use Rattle.std.specs.Prelude.{◌≡◌, ◌+◌, ◌<◌, ℕ, IsTrue, IsFalse, IfOk, IfErr, length};
ghost use Rattle.term_tokens.specs.Lexed.{LexedBy, atom_lexed, lexed};
ghost use Rattle.term_tokens.specs.Lexing.{IsNarrow};
ghost use Rattle.term_tokens.specs.declared.cause.TermCause.{TermCause};
ghost use Rattle.term_tokens.specs.Local.{IsFirst, IsFree, Locally, takes};
ghost use Rattle.term_tokens.specs.Refused.{is_memory};
ghost use Rattle.term_tokens.specs.Tokens.{Begins};

use crate::bytes::{is_digit, is_name_start};
use crate::cause::TermCause;
use crate::expected::Expected;
use crate::fault::Fault;
use crate::names::{name, name_atom};
use crate::numbers::integer;
use crate::signs::sign;
use crate::strings::{quoted_atom, string};
use crate::token::Token;
use crate::words::words;
use std::alloc::Global;

/// The token that a text begins with, where it may stand there, and the text after it.
///
/// A string or an atom without a colon is no token before a colon. The fault is the first of the text.
pub fn first_token(alloc: Global, text: &[u8], expected: Expected) -> Result<(Token, &[u8]), Fault>
    // The text's own term is no keyword's key.
    requires { IsTrue expected.outermost → IsFalse expected.key }
    ensures begins { IfOk result (λ found. Begins text.now found.0 found.1.now) }
    ensures taken { IfOk result (λ found. IsTrue (takes expected found.0)) }
    ensures narrow { IfOk result (λ found. IsNarrow found.0) }
    ensures free { IfOk result (λ found. IsFree text.now found.0 found.1.now) }
    ensures shorter { IfOk result (λ found. length found.1.now < length text.now) }
    // Nothing holds there of the text.
    ensures whole { IfOk result (λ found. (place : ℕ) (why : TermCause)
        → Locally expected text.now place why → ⊥) }
    ensures refused { IfErr result (λ fault. IsFalse (is_memory fault.cause)
        → (k : ℕ) × (fault.left + k ≡ length text.now) × IsFirst expected text.now k fault.cause) }
{
    token(alloc, text, expected)
}

/// The first token, by its first byte.
fn token(alloc: Global, text: &[u8], expected: Expected) -> Result<(Token, &[u8]), Fault>
    ensures { LexedBy (λ found. (found.0, found.1.now)) result (lexed expected text.now) }
{
    match text {
        [] => Err(Fault::before(text, TermCause::Unclosed)),
        [b':', after @ ..] => atom(alloc, text, after, expected),
        [b'"', inside @ ..] => string(alloc, text, inside, expected),
        [b'~', after @ ..] if expected.term => words(alloc, text, after),
        [b'~', ..] => Err(Fault::before(text, TermCause::Unexpected)),
        [byte, ..] if *byte == b'-' || is_digit(*byte, 10) => integer(alloc, text, expected),
        [byte, ..] if is_name_start(*byte) => name(alloc, text, expected),
        _ => sign(text, expected),
    }
}

/// An atom: the text from its colon on, and after it.
fn atom<'a>(
    alloc: Global,
    text: &'a [u8],
    after: &'a [u8],
    expected: Expected,
) -> Result<(Token, &'a [u8]), Fault>
    ensures { LexedBy (λ found. (found.0, found.1.now)) result
        (atom_lexed expected text.now after.now) }
{
    if !expected.term {
        return Err(Fault::before(text, TermCause::Unexpected));
    }
    match after {
        [] => Err(Fault::before(after, TermCause::Unclosed)),
        [b'"', inside @ ..] => quoted_atom(alloc, after, inside),
        [byte, ..] if is_name_start(*byte) => name_atom(alloc, after),
        _ => Err(Fault::before(after, TermCause::Unexpected)),
    }
}
