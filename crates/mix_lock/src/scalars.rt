// Names, versions, bytes and truths in terms.
ghost use Rattle.std.specs.Prelude.{◌≡◌, IfOk};
ghost use Rattle.std.specs.List.{list_all};
ghost use Rattle.term_values.specs.Apps.{app_of};
ghost use Rattle.term_values.specs.Views.{all_of};
ghost use Rattle.mix_lock.specs.Terms.{names_of, version_of, is_lower_digit, bytes_in, bytes_of, truth_of, is_hexpm};

use elixir_terms::Term;
use hex::{FromHexError, decode};
use mx_base::{Bytes, Names, Text};
use std::alloc::{AllocError, Global};
use term_values::app_of;
use version_req::version_in;

/// The registry that there is.
pub(crate) const HEXPM: &[u8; 5] = b"hexpm";

/// A list of atoms that are names of apps.
pub(crate) fn names_of(alloc: Global, term: &Term) -> Result<Option<Names>, AllocError>
    ensures { IfOk result (λ found. found ≡ names_of term.now) }
{
    match term.as_list() {
        Some(items) => names_in(alloc, items),
        None => Ok(None),
    }
}

// Each name, where all are names.
fn names_in(alloc: Global, items: &[Term]) -> Result<Option<Names>, AllocError>
    ensures { IfOk result (λ found. found ≡ all_of app_of items.now) }
{
    let mut names = Names::new(alloc);
    for item in items {
        match app_of(alloc, item)? {
            Some(name) => names.push(name)?,
            None => return Ok(None),
        }
    }
    Ok(Some(names))
}

/// A string that is a version.
pub(crate) fn version_of(alloc: Global, term: &Term) -> Result<Option<Text>, AllocError>
    ensures { IfOk result (λ found. found ≡ version_of term.now) }
{
    match term.as_string() {
        Some(text) => version_in(alloc, text.as_slice()),
        None => Ok(None),
    }
}

/// A string of hexadecimal digits in lower case, two for each byte.
pub(crate) fn bytes_of(alloc: Global, term: &Term) -> Result<Option<Bytes>, AllocError>
    ensures { IfOk result (λ found. found ≡ bytes_of term.now) }
{
    match term.as_string() {
        Some(text) => bytes_in(alloc, text.as_slice()),
        None => Ok(None),
    }
}

fn bytes_in(alloc: Global, text: &[u8]) -> Result<Option<Bytes>, AllocError>
    ensures { IfOk result (λ found. found ≡ bytes_in text.now) }
{
    if !are_lower_digits(text) {
        return Ok(None);
    }
    match decode(alloc, text) {
        Ok(bytes) => Ok(Some(Bytes::from_vec(bytes))),
        Err(FromHexError::OutOfMemory) => Err(AllocError),
        Err(_) => Ok(None),
    }
}

fn are_lower_digits(text: &[u8]) -> bool
    ensures { result ≡ list_all is_lower_digit text.now }
{
    text.iter().all(|byte| is_lower_digit(*byte))
}

fn is_lower_digit(byte: u8) -> bool
    ensures { result ≡ is_lower_digit byte }
{
    (b'0' <= byte && byte <= b'9') || (b'a' <= byte && byte <= b'f')
}

/// An atom `true` or `false`.
pub(crate) fn truth_of(term: &Term) -> Option<bool>
    ensures { result ≡ truth_of term.now }
{
    let name = term.as_atom()?.as_slice();
    if name == b"true".as_slice() {
        Some(true)
    } else if name == b"false".as_slice() {
        Some(false)
    } else {
        None
    }
}

/// The string `hexpm`.
pub(crate) fn is_hexpm(term: &Term) -> bool
    ensures { result ≡ is_hexpm term.now }
{
    match term.as_string() {
        Some(text) => text.as_slice() == HEXPM.as_slice(),
        None => false,
    }
}
