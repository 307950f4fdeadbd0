// The terms that brackets enclose.
ghost use Rattle.std.specs.Prelude.{◌≡◌, [], ◌++◌, map, IfOk};
ghost use Rattle.term_tokens.specs.declared.bracket.Bracket.TheVariants as bracket;
ghost use Rattle.term_print.specs.Grammar.{enclosed, pair_tuple, word_list, word_term};

use mx_base::{Bytes, Text};
use sqlite_items::Items;
use std::alloc::{AllocError, Global};
use term_tokens::WordKind;
use term_values::{Pairs, Term, Terms};

/// A list of elements and then keywords. It takes no entries.
pub fn list(
    alloc: Global,
    mut items: Terms,
    entries: &Pairs,
    keywords: Pairs,
) -> Result<Option<Term>, AllocError>
    ensures { IfOk result (λ term. term ≡ enclosed bracket.List items entries.now keywords) }
{
    if !entries.as_slice().is_empty() {
        return Ok(None);
    }
    items.append(tuples(alloc, keywords)?)?;
    Ok(Some(Term::List(items)))
}

/// A tuple of elements. Keywords are its last element. It takes no entries, and no keywords alone.
pub fn tuple(
    alloc: Global,
    mut items: Terms,
    entries: &Pairs,
    keywords: Pairs,
) -> Result<Option<Term>, AllocError>
    ensures { IfOk result (λ term. term ≡ enclosed bracket.Tuple items entries.now keywords) }
{
    if !entries.as_slice().is_empty() {
        return Ok(None);
    }
    if keywords.as_slice().is_empty() {
        return Ok(Some(Term::Tuple(items)));
    }
    if items.as_slice().is_empty() {
        return Ok(None);
    }
    items.push(Term::List(tuples(alloc, keywords)?))?;
    Ok(Some(Term::Tuple(items)))
}

/// A map of entries and then keywords. It takes no elements.
pub fn mapping(
    items: &Terms,
    mut entries: Pairs,
    keywords: Pairs,
) -> Result<Option<Term>, AllocError>
    ensures { IfOk result (λ term. term ≡ enclosed bracket.Map items.now entries keywords) }
{
    if !items.as_slice().is_empty() {
        return Ok(None);
    }
    entries.append(keywords)?;
    Ok(Some(Term::Map(entries)))
}

/// The pairs as elements of a list: tuples of two.
fn tuples(alloc: Global, mut pairs: Pairs) -> Result<Terms, AllocError>
    ensures { IfOk result (λ terms. terms ≡ map pair_tuple pairs) }
{
    let mut terms = Vec::new(alloc);
    while let Some((key, value)) = pairs.pop() {
        let mut both = Items::new(alloc);
        both.push(key)?;
        both.push(value)?;
        terms.push(Term::Tuple(both))?;
    }
    terms.reverse();
    Ok(Items::from_vec(terms))
}

/// The list of words.
pub fn word_list(alloc: Global, kind: WordKind, mut words: Items<Bytes>) -> Result<Term, AllocError>
    ensures { IfOk result (λ list. list ≡ word_list kind words) }
{
    let mut terms = Vec::new(alloc);
    while let Some(word) = words.pop() {
        terms.push(word_term(kind, word))?;
    }
    terms.reverse();
    Ok(Term::List(Items::from_vec(terms)))
}

/// A word as a term.
fn word_term(kind: WordKind, word: Bytes) -> Term
    ensures { result ≡ word_term kind word }
{
    match kind {
        WordKind::Strings => Term::Str(word),
        WordKind::Atoms => Term::Atom(Text::from_vec(word.into_vec())),
    }
}
