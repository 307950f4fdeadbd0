// The reader of a whole text.
ghost use Rattle.std.specs.Prelude.{MatchOption, get_or, ◌≡◌, ℕ, ◌+◌, ◌≤◌, ◌<◌, [], List, Some, None, length, ◌↔◌, IsTrue, IsFalse, IfOk, IfErr};
ghost use Rattle.std.specs.Str.{IsUtf8};
ghost use Rattle.term_tokens.specs.declared.cause.TermCause.TheVariants.{DuplicateKey, Unclosed};
ghost use Rattle.elixir_terms.specs.declared.state.State.TheVariants.{Done};
ghost use Rattle.term_values.specs.declared.term.Term.{Term};
ghost use Rattle.term_tokens.specs.declared.token.Token.{Token};
ghost use Rattle.term_tokens.specs.Lexing.{past_blank};
ghost use Rattle.term_tokens.specs.Local.{takes};
ghost use Rattle.elixir_terms.specs.Machine.{depth, expected, step, HasLevels, NewKeyword};
ghost use Rattle.elixir_terms.specs.Reading.{Advances, BeginsDeepWords, Halts, HasRoomAt, IsOpenAt, IsStuck, Moves, Stands, Stops, noted};
ghost use Rattle.elixir_terms.specs.Refusals.{IsRefusal};
ghost use Rattle.term_tokens.specs.Refused.{is_memory};
ghost use Rattle.term_print.specs.Spells.{Spells};
ghost use Rattle.elixir_terms.specs.Within.{longest, Within};

use crate::error::TermError;
use crate::holes::Holes;
use crate::state::State;
use std::alloc::Global;
use term_tokens::{Fault, TermCause, Token, first_token, skip_blanks};
use term_values::Term;

/// The longest text that is read, in bytes.
const LONGEST: usize = 4_194_304;

/// Reads the term that the whole text spells, within the limits: texts of at most 4,194,304 bytes, terms of at
/// most 64 levels, integers of 128 bits, and maps whose keys differ. The error is the first of what is against
/// it.
///
/// Goes once over the text, and takes memory for the term and for the brackets that are open.
pub fn read(alloc: Global, text: &[u8]) -> Result<Term, TermError>
    // What is read is what the text spells.
    ensures read { IfOk result (λ term. Spells text.now term × Within text.now term) }
    // What is refused has this refusal, unless memory ran out.
    ensures refused { IfErr result (λ error. IsFalse (is_memory error.cause)
        → IsRefusal text.now error.at error.cause) }
{
    if text.len() > LONGEST {
        return Err(TermError {
            at: LONGEST as u64,
            cause: TermCause::TooLong,
        });
    }
    if let Err(error) = str::from_utf8(text) {
        return Err(TermError {
            at: error.valid_up_to() as u64,
            cause: TermCause::BadUtf8,
        });
    }
    match read_tokens(alloc, text) {
        Ok(term) => Ok(term),
        Err(fault) => Err(placed(text, fault)),
    }
}

/// The fault with its place from the beginning of the text.
fn placed(text: &[u8], fault: Fault) -> TermError
    requires { IsFalse (is_memory fault.cause) → fault.left ≤ length text.now }
    ensures place { IsFalse (is_memory fault.cause) → result.at + fault.left ≡ length text.now }
    ensures cause { result.cause ≡ fault.cause }
{
    match fault.cause {
        TermCause::OutOfMemory => TermError::MEMORY,
        cause => TermError {
            at: (text.len() - fault.left) as u64,
            cause,
        },
    }
}

/// Reads the term of a text that is UTF-8 and no longer than allowed.
fn read_tokens(alloc: Global, text: &[u8]) -> Result<Term, Fault>
    requires utf8 { IsUtf8 text.now }
    requires short { length text.now ≤ longest }
    ensures read { IfOk result (λ term. Spells text.now term × Within text.now term) }
    ensures refused { IfErr result (λ fault. IsFalse (is_memory fault.cause)
        → (at : ℕ) × (at + fault.left ≡ length text.now) × IsRefusal text.now at fault.cause) }
{
    let mut state = State::Value {
        holes: Holes::new(alloc),
    };
    // Where the last key began in each open bracket.
    let mut begun: Vec<usize> = vec![in alloc; 0; 65]?;
    let mut rest = skip_blanks(text);
    while !rest.is_empty() {
        let (next, after) = advanced(alloc, state, rest, &mut begun)?;
        state = next;
        rest = after;
    }
    finished(state)
}

/// The state after the first token of a text, and the text from the next one on.
fn advanced<'a>(
    alloc: Global,
    state: State,
    text: &'a [u8],
    begun: &mut Vec<usize>,
) -> Result<(State, &'a [u8]), Fault>
    requires steps { (token : Token) → IsTrue (takes (expected state) token)
        → step state token ≡ None → ⊥ }
    requires places { length begun.old.items ≡ 65 }
    ensures noted { begun.new.items ≡ noted state (length text.now) begun.old.items }
    ensures advances { IfOk result (λ found. Advances state text.now found.0 found.1.now) }
    ensures shorter { IfOk result (λ found. length found.1.now < length text.now) }
    ensures halts { IfErr result (λ fault. IsFalse (is_memory fault.cause)
        → Halts state text.now begun.new.items fault) }
{
    note(begun, &state, text.len());
    let (next, after) = read_token(alloc, state, text)?;
    if next.repeats_entry(alloc)? {
        return Err(repeated(begun.as_slice(), &next));
    }
    Ok((next, skip_blanks(after)))
}

/// The fault of a map's key that was read last and equals an earlier one, at its first byte.
fn repeated(begun: &[usize], state: &State) -> Fault
    requires { length begun.now ≡ 65 }
    ensures left { result.left ≡ get_or begun.now (depth state.now) 0 }
    ensures cause { result.cause ≡ DuplicateKey }
{
    Fault {
        left: begun[state.depth()],
        cause: TermCause::DuplicateKey,
    }
}

/// The term of the text that ends here, where it is whole.
fn finished(state: State) -> Result<Term, Fault>
    ensures whole { IfOk result (λ term. state ≡ Done term) }
    ensures open_ { IfErr result (λ fault. (fault.left ≡ 0) × (fault.cause ≡ Unclosed)
        × ((t : Term) → state ≡ Done t → ⊥)) }
{
    match state {
        State::Done { term } => Ok(term),
        _other => Err(Fault {
            left: 0,
            cause: TermCause::Unclosed,
        }),
    }
}

/// Where a key may begin, notes its place for the bracket.
fn note(begun: &mut Vec<usize>, state: &State, left: usize)
    requires { length begun.old.items ≡ 65 }
    ensures { begun.new.items ≡ noted state.now left begun.old.items }
{
    let depth = state.depth();
    if let State::Element { .. } = state {
        begun[depth] = left;
    }
}

/// The state after the first token of the text, and the text after it.
fn read_token(alloc: Global, state: State, text: &[u8]) -> Result<(State, &[u8]), Fault>
    requires steps { (token : Token) → IsTrue (takes (expected state) token)
        → step state token ≡ None → ⊥ }
    ensures moves { IfOk result (λ found. Moves state text.now found.0 found.1.now) }
    ensures shorter { IfOk result (λ found. length found.1.now < length text.now) }
    ensures stops { IfErr result (λ fault. IsFalse (is_memory fault.cause)
        → (k : ℕ) × (fault.left + k ≡ length text.now) × Stops state text.now k fault.cause) }
{
    match next_token(alloc, &state, text) {
        Ok((token, again, after)) => {
            let next = stepped(alloc, state, token, again, text.len())?;
            Ok((next, after))
        }
        Err(fault) => {
            drop(state);
            Err(fault)
        }
    }
}

/// The first token of the text, whether it is a keyword's key that comes again, and the text after it.
fn next_token<'a>(
    alloc: Global,
    state: &State,
    text: &'a [u8],
) -> Result<(Token, bool, &'a [u8]), Fault>
    ensures stands { IfOk result (λ found. Stands state.now text.now found.0 found.2.now) }
    ensures again { IfOk result (λ found. IsFalse found.1 ↔ NewKeyword state.now found.0) }
    ensures shorter { IfOk result (λ found. length found.2.now < length text.now) }
    ensures stops { IfErr result (λ fault. IsFalse (is_memory fault.cause)
        → (k : ℕ) × (fault.left + k ≡ length text.now) × Stops state.now text.now k fault.cause) }
{
    if let Some(cause) = stop_before(state, text) {
        return Err(Fault::before(text, cause));
    }
    let (token, after) = first_token(alloc, text, state.expected())?;
    let again = state.repeats_keyword(alloc, &token)?;
    Ok((token, again, after))
}

/// The state after a token that may stand there, so far from the end of the text. It may be a keyword's key that comes
/// again.
fn stepped(
    alloc: Global,
    state: State,
    token: Token,
    again: bool,
    left: usize,
) -> Result<State, Fault>
    requires again { IsFalse again ↔ NewKeyword state token }
    requires steps { step state token ≡ None → ⊥ }
    ensures levels { IfOk result (λ next. HasLevels state token) }
    ensures new { IfOk result (λ next. NewKeyword state token) }
    ensures next { IfOk result (λ next. step state token ≡ Some next) }
    ensures stuck { IfErr result (λ fault. IsFalse (is_memory fault.cause)
        → (fault.left ≡ left) × IsStuck state token fault.cause) }
{
    let next = state.step(alloc, token, left)?;
    if again {
        drop(next);
        return Err(Fault {
            left,
            cause: TermCause::DuplicateKey,
        });
    }
    Ok(next)
}

/// Why nothing is read of the text, where that is plain before its first token is.
fn stop_before(state: &State, text: &[u8]) -> Option<TermCause>
    ensures { MatchOption result (IsOpenAt state.now text.now)
        (λ cause. Stops state.now text.now 0 cause) }
{
    if let State::Done { .. } = state {
        return Some(TermCause::TrailingText);
    }
    if begins_deep_words(state, text) {
        return Some(TermCause::TooDeep);
    }
    None
}

/// Whether words begin the text where a term may, and make too many levels. Their end may be missing.
fn begins_deep_words(state: &State, text: &[u8]) -> bool
    ensures room { IsFalse result → HasRoomAt state.now text.now }
    ensures deep { IsTrue result → BeginsDeepWords state.now text.now }
{
    match text {
        [b'~', b'w', b'(', ..] => !state.has_room_for_words(),
        _ => false,
    }
}

/// No text spells two terms.
pub fn one_reading()
    ensures { (text : List ℕ) (term other : Term) → Spells text term → Spells text other
        → term ≡ other }
{}
