// What a term is, seen from outside.
ghost use Rattle.std.specs.Prelude.{◌≡◌, IfOk, option_map};
ghost use Rattle.std.specs.Option.{option_copied};
ghost use Rattle.term_values.specs.Views.{atom_of, string_of, list_of, tuple_of, map_of, pair_of, keyword_of, keywords_of, named};

use crate::term::Term;
use mx_base::{Bytes, Text};
use std::alloc::{AllocError, Global};

impl Term {
    /// The name of an atom.
    pub fn as_atom(&self) -> Option<&Text>
        ensures { option_copied result ≡ atom_of self.now }
    {
        match self {
            Term::Atom(name) => Some(name),
            _ => None,
        }
    }

    /// The bytes of a string.
    pub fn as_string(&self) -> Option<&Bytes>
        ensures { option_copied result ≡ string_of self.now }
    {
        match self {
            Term::Str(bytes) => Some(bytes),
            _ => None,
        }
    }

    /// The elements of a list.
    pub fn as_list(&self) -> Option<&[Term]>
        ensures { option_map (λ items. items.now) result ≡ list_of self.now }
    {
        match self {
            Term::List(items) => Some(items.as_slice()),
            _ => None,
        }
    }

    /// The elements of a tuple.
    pub fn as_tuple(&self) -> Option<&[Term]>
        ensures { option_map (λ items. items.now) result ≡ tuple_of self.now }
    {
        match self {
            Term::Tuple(items) => Some(items.as_slice()),
            _ => None,
        }
    }

    /// The elements of a tuple of two.
    pub fn as_pair(&self) -> Option<(&Term, &Term)>
        ensures { option_map (λ pair. (pair.0.now, pair.1.now)) result ≡ pair_of self.now }
    {
        match self.as_tuple()? {
            [first, second] => Some((first, second)),
            _ => None,
        }
    }

    /// The keys of a map and their values.
    pub fn as_map(&self) -> Option<&[(Term, Term)]>
        ensures { option_map (λ pairs. pairs.now) result ≡ map_of self.now }
    {
        match self {
            Term::Map(pairs) => Some(pairs.as_slice()),
            _ => None,
        }
    }

    /// The names and the values of a keyword list.
    ///
    /// # Errors
    ///
    /// Memory ran out.
    pub fn keywords(&self, alloc: Global) -> Result<Option<Vec<(&Text, &Term)>>, AllocError>
        ensures { IfOk result (λ found. option_map (λ entries. named entries.items) found
            ≡ keywords_of self.now) }
    {
        let Some(items) = self.as_list() else {
            return Ok(None);
        };
        let mut keywords = Vec::new(alloc);
        for item in items {
            match keyword(item) {
                Some(keyword) => keywords.push(keyword)?,
                None => return Ok(None),
            }
        }
        Ok(Some(keywords))
    }
}

// The atom and the value of a keyword.
fn keyword(item: &Term) -> Option<(&Text, &Term)>
    ensures { option_map (λ keyword. (keyword.0.now, keyword.1.now)) result ≡ keyword_of item.now }
{
    let (key, value) = item.as_pair()?;
    Some((key.as_atom()?, value))
}
