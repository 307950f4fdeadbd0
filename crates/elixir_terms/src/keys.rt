// The codes of keys, which tell whether a map repeats one.
ghost use Rattle.std.specs.Prelude.{◌≡◌, [], ◌∷◌, ◌++◌, map, IfOk, OnOk};
ghost use Rattle.std.specs.Int.Digits.{digits_of};
ghost use Rattle.elixir_terms.specs.KeyCode.{term_code, integer_code, bytes_code, parts_code, pairs_code, pair_codes, marked};

use mx_base::Bytes;
use std::alloc::{AllocError, Global};
use term_values::Term;

// What a code begins with.
const ATOM: u8 = 0;

const INT: u8 = 1;

const STR: u8 = 2;

const LIST: u8 = 3;

const TUPLE: u8 = 4;

const MAP: u8 = 5;

// What stands before a byte or a part in a code, and what stands after the last.
const MORE: u8 = 1;

const END: u8 = 0;

/// The code of a key.
///
/// # Errors
///
/// `AllocError` where there is not enough memory.
pub fn code_of(alloc: Global, key: &Term) -> Result<Bytes, AllocError>
    ensures { IfOk result (λ code. code ≡ term_code key.now) }
{
    let mut code = Vec::new(alloc);
    push_term(&mut code, key)?;
    Ok(Bytes::from_vec(code))
}

// Adds the code of a term: what kind it is, and what is in it.
#[cycle(push_term)]
fn push_term(code: &mut Vec<u8>, term: &Term) -> Result<(), AllocError>
    ensures { OnOk result (code.new.items ≡ code.old.items ++ term_code term.now) }
{
    match term {
        Term::Atom(name) => push_bytes(code, ATOM, name.as_slice()),
        Term::Int(n) => push_integer(code, *n),
        Term::Str(bytes) => push_bytes(code, STR, bytes.as_slice()),
        Term::List(parts) => push_parts(code, LIST, parts.as_slice()),
        Term::Tuple(parts) => push_parts(code, TUPLE, parts.as_slice()),
        Term::Map(pairs) => push_pairs(code, pairs.as_slice()),
    }
}

// Adds the kind, and the codes of terms.
#[cycle(push_term)]
fn push_parts(code: &mut Vec<u8>, kind: u8, parts: &[Term]) -> Result<(), AllocError>
    ensures { OnOk result (code.new.items ≡ code.old.items
        ++ kind ∷ parts_code (map term_code parts.now)) }
{
    code.push(kind)?;
    for part in parts {
        code.push(MORE)?;
        push_term(code, part)?;
    }
    code.push(END)?;
    Ok(())
}

// Adds the kind of a map, and the codes of keys and their values.
#[cycle(push_term)]
fn push_pairs(code: &mut Vec<u8>, pairs: &[(Term, Term)]) -> Result<(), AllocError>
    ensures { OnOk result (code.new.items ≡ code.old.items
        ++ 5 ∷ pairs_code (map pair_codes pairs.now)) }
{
    code.push(MAP)?;
    for (key, value) in pairs {
        code.push(MORE)?;
        push_term(code, key)?;
        push_term(code, value)?;
    }
    code.push(END)?;
    Ok(())
}

// Adds the kind and the code of an integer.
fn push_integer(code: &mut Vec<u8>, n: i128) -> Result<(), AllocError>
    ensures { OnOk result (code.new.items ≡ code.old.items ++ 1 ∷ integer_code n) }
{
    code.push(INT)?;
    code.push(u8::from(n < 0))?;
    push_digits(code, n.unsigned_abs())?;
    code.push(END)?;
    Ok(())
}

// Adds the digits of a number to the base 256, the first one first.
fn push_digits(code: &mut Vec<u8>, n: u128) -> Result<(), AllocError>
    ensures { OnOk result (code.new.items ≡ code.old.items ++ marked (digits_of 256 n)) }
{
    if n > 0 {
        push_digits(code, n / 256)?;
        code.push(MORE)?;
        code.push((n % 256) as u8)?;
    }
    Ok(())
}

// Adds the kind and the code of bytes.
fn push_bytes(code: &mut Vec<u8>, kind: u8, bytes: &[u8]) -> Result<(), AllocError>
    ensures { OnOk result (code.new.items ≡ code.old.items ++ kind ∷ bytes_code bytes.now) }
{
    code.push(kind)?;
    for byte in bytes {
        code.push(MORE)?;
        code.push(*byte)?;
    }
    code.push(END)?;
    Ok(())
}
