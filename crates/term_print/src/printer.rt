// The text of a term, on one line.
ghost use Rattle.std.specs.Prelude.{◌≡◌, ◌++◌, map, is_some, IfOk, OnOk};
ghost use Rattle.std.specs.List.{list_all};
ghost use Rattle.term_print.specs.Printable.{IsPrintable};
ghost use Rattle.term_print.specs.Spells.{Spells};
ghost use Rattle.term_print.specs.Printed.{shown, printed, printed_key, printed_keyword, printed_entry, printed_field, joined, shown_pair, list_inside, map_inside};

use crate::scalars::{print_atom, print_atom_key, print_integer, print_string};
use mx_base::Bytes;
use std::alloc::{AllocError, Global};
use term_values::Term;

// What stands between two parts.
const COMMA: &[u8] = b", ";

/// The text of a term, on one line. A list of keywords and a map whose keys are atoms show them as `key: value`.
///
/// # Errors
///
/// `AllocError` where there is not enough memory.
pub fn print(alloc: Global, term: &Term) -> Result<Bytes, AllocError>
    ensures text { IfOk result (λ bytes. bytes ≡ printed term.now) }
    // A term whose atoms are UTF-8 is what its text spells.
    ensures spells { IsPrintable term.now → IfOk result (λ bytes. Spells bytes term.now) }
{
    let mut out = Vec::new(alloc);
    print_term(&mut out, term)?;
    Ok(Bytes::from_vec(out))
}

#[cycle(print_term)]
fn print_term(out: &mut Vec<u8>, term: &Term) -> Result<(), AllocError>
    ensures { OnOk result (out.new.items ≡ out.old.items ++ printed term.now) }
{
    match term {
        Term::Atom(name) => print_atom(out, name.as_slice()),
        Term::Int(n) => print_integer(out, *n),
        Term::Str(bytes) => print_string(out, bytes.as_slice()),
        Term::List(parts) => {
            out.push(b'[')?;
            print_list_inside(out, parts.as_slice())?;
            out.push(b']')?;
            Ok(())
        }
        Term::Tuple(parts) => {
            out.push(b'{')?;
            print_parts(out, parts.as_slice())?;
            out.push(b'}')?;
            Ok(())
        }
        Term::Map(pairs) => {
            out.extend_from_slice(b"%{")?;
            print_map_inside(out, pairs.as_slice())?;
            out.push(b'}')?;
            Ok(())
        }
    }
}

// Adds what stands between the brackets of a list.
#[cycle(print_term)]
fn print_list_inside(out: &mut Vec<u8>, parts: &[Term]) -> Result<(), AllocError>
    ensures { OnOk result (out.new.items ≡ out.old.items ++ list_inside (map shown parts.now)) }
{
    if are_keywords(parts) {
        print_keywords(out, parts)
    } else {
        print_parts(out, parts)
    }
}

// Adds what stands between the brackets of a map.
#[cycle(print_term)]
fn print_map_inside(out: &mut Vec<u8>, pairs: &[(Term, Term)]) -> Result<(), AllocError>
    ensures { OnOk result (out.new.items ≡ out.old.items ++ map_inside (map shown_pair pairs.now)) }
{
    if are_fields(pairs) {
        print_fields(out, pairs)
    } else {
        print_entries(out, pairs)
    }
}

// Adds terms with commas between them.
#[cycle(print_term)]
fn print_parts(out: &mut Vec<u8>, parts: &[Term]) -> Result<(), AllocError>
    ensures { OnOk result (out.new.items ≡ out.old.items ++ joined (map printed parts.now)) }
{
    let mut separator: &[u8] = b"";
    for part in parts {
        out.extend_from_slice(separator)?;
        print_term(out, part)?;
        separator = COMMA;
    }
    Ok(())
}

// Adds the parts of a list as keywords.
#[cycle(print_term)]
fn print_keywords(out: &mut Vec<u8>, parts: &[Term]) -> Result<(), AllocError>
    ensures { OnOk result (out.new.items ≡ out.old.items
        ++ joined (map printed_keyword parts.now)) }
{
    let mut separator: &[u8] = b"";
    for part in parts {
        out.extend_from_slice(separator)?;
        print_keyword(out, part)?;
        separator = COMMA;
    }
    Ok(())
}

// Adds a keyword, and nothing where the term is none.
#[cycle(print_term)]
fn print_keyword(out: &mut Vec<u8>, term: &Term) -> Result<(), AllocError>
    ensures { OnOk result (out.new.items ≡ out.old.items ++ printed_keyword term.now) }
{
    let Term::Tuple(parts) = term else {
        return Ok(());
    };
    match parts.as_slice() {
        [key, value] if is_atom(key) => {
            print_key(out, key)?;
            print_term(out, value)
        }
        _ => Ok(()),
    }
}

// Adds the pairs of a map whose keys are atoms.
#[cycle(print_term)]
fn print_fields(out: &mut Vec<u8>, pairs: &[(Term, Term)]) -> Result<(), AllocError>
    ensures { OnOk result (out.new.items ≡ out.old.items ++ joined (map printed_field pairs.now)) }
{
    let mut separator: &[u8] = b"";
    for (key, value) in pairs {
        out.extend_from_slice(separator)?;
        print_key(out, key)?;
        print_term(out, value)?;
        separator = COMMA;
    }
    Ok(())
}

// Adds the pairs of a map with arrows.
#[cycle(print_term)]
fn print_entries(out: &mut Vec<u8>, pairs: &[(Term, Term)]) -> Result<(), AllocError>
    ensures { OnOk result (out.new.items ≡ out.old.items ++ joined (map printed_entry pairs.now)) }
{
    let mut separator: &[u8] = b"";
    for (key, value) in pairs {
        out.extend_from_slice(separator)?;
        print_term(out, key)?;
        out.extend_from_slice(b" => ")?;
        print_term(out, value)?;
        separator = COMMA;
    }
    Ok(())
}

// Adds a keyword's key, and nothing where the term is no atom.
fn print_key(out: &mut Vec<u8>, term: &Term) -> Result<(), AllocError>
    ensures { OnOk result (out.new.items ≡ out.old.items ++ printed_key term.now) }
{
    match term {
        Term::Atom(name) => print_atom_key(out, name.as_slice()),
        _ => Ok(()),
    }
}

// Whether each term is a keyword.
fn are_keywords(terms: &[Term]) -> bool
    ensures { result ≡ list_all (λ t. is_some (shown t).keyword) terms.now }
{
    terms.iter().all(|term| is_keyword(term))
}

// Whether each key is an atom.
fn are_fields(pairs: &[(Term, Term)]) -> bool
    ensures { result ≡ list_all (λ p. is_some (shown p.0).key) pairs.now }
{
    pairs.iter().all(|pair| is_atom(&pair.0))
}

// A tuple of two with an atom first.
#[tactic(auto, using(crate::proofs::Shows::keyword_of_two, crate::proofs::Shows::keyword_of_fewer, crate::proofs::Shows::keyword_of_more))]
fn is_keyword(term: &Term) -> bool
    ensures { result ≡ is_some (shown term.now).keyword }
{
    match term {
        Term::Tuple(parts) => match parts.as_slice() {
            [first, _] => is_atom(first),
            _ => false,
        },
        _ => false,
    }
}

fn is_atom(term: &Term) -> bool
    ensures { result ≡ is_some (shown term.now).key }
{
    matches!(term, Term::Atom(_))
}
