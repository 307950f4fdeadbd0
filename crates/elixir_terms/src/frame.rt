// Open brackets, with what was read in them.
ghost use Rattle.std.specs.Prelude.{◌≡◌, ◌≤◌, [], IfOk};
ghost use Rattle.term_print.specs.Grammar.{closing_of, enclosed};
ghost use Rattle.elixir_terms.specs.Levels.{cost, keyword_cost};
ghost use Rattle.elixir_terms.specs.Machine.{empty, is_closed_by, part_slot, takes_key, takes_part, with_entry, with_pair};

use crate::enclosed::{list, mapping, tuple};
use crate::opened::Opened;
use mx_base::Text;
use sqlite_items::Items;
use std::alloc::{AllocError, Global};
use term_tokens::{Bracket, Closing};
use term_values::{Pairs, Term, Terms};

/// An open bracket, and what was read in it: elements or entries, and then keywords.
#[derive(Drop)]
pub struct Frame {
    pub bracket: Bracket,
    pub items: Terms,
    pub entries: Pairs,
    pub keywords: Pairs,
}

/// What a term in a bracket is.
#[derive(Drop)]
pub enum Slot {
    /// An element of a list or a tuple.
    Element,
    /// The value of a keyword's key.
    Keyword(Text),
    /// What stands before the `=>` of a map.
    EntryKey,
    /// What stands after the `=>`, with the key before it.
    EntryValue(Term),
}

/// A place in an open bracket where a term is wanted.
#[derive(Drop)]
pub struct Hole {
    pub frame: Opened,
    pub slot: Slot,
}

/// Whether the bracket is closed so.
pub fn is_closed_by(bracket: Bracket, closing: Closing) -> bool
    ensures { result ≡ is_closed_by bracket closing }
{
    match (bracket, closing) {
        (Bracket::List, Closing::Square) => true,
        (Bracket::Tuple, Closing::Curly) => true,
        (Bracket::Map, Closing::Curly) => true,
        _ => false,
    }
}

/// How the bracket is closed.
pub fn closing_of(bracket: Bracket) -> Closing
    ensures { result ≡ closing_of bracket }
{
    match bracket {
        Bracket::List => Closing::Square,
        Bracket::Tuple | Bracket::Map => Closing::Curly,
    }
}

/// What a term without a keyword's key is in the bracket.
pub fn part_slot(bracket: Bracket) -> Slot
    ensures { result ≡ part_slot bracket }
{
    match bracket {
        Bracket::List | Bracket::Tuple => Slot::Element,
        Bracket::Map => Slot::EntryKey,
    }
}

/// How many levels a keyword is made of, from the term that the bracket makes down to the pair.
fn keyword_cost(bracket: Bracket) -> u8
    ensures value { result ≡ keyword_cost bracket }
    ensures few { result ≤ 3 }
{
    match bracket {
        Bracket::List => 2,
        Bracket::Tuple => 3,
        Bracket::Map => 1,
    }
}

impl Frame {
    pub fn new(alloc: Global, bracket: Bracket) -> Frame
        ensures { result ≡ empty bracket }
    {
        Frame {
            bracket,
            items: Items::new(alloc),
            entries: Items::new(alloc),
            keywords: Items::new(alloc),
        }
    }

    /// Whether a keyword may stand here. In a tuple it needs an element before it.
    pub fn takes_key(&self) -> bool
        ensures { result ≡ takes_key self.now }
    {
        match self.bracket {
            Bracket::List | Bracket::Map => true,
            Bracket::Tuple => !self.items.as_slice().is_empty(),
        }
    }

    /// Whether an element or an entry may stand here: not after a keyword.
    pub fn takes_part(&self) -> bool
        ensures { result ≡ takes_part self.now }
    {
        self.keywords.as_slice().is_empty()
    }

    /// With one more entry.
    pub fn with_entry(mut self, key: Term, value: Term) -> Result<Frame, AllocError>
        ensures { IfOk result (λ frame. frame ≡ with_entry self key value) }
    {
        self.entries.push((key, value))?;
        Ok(self)
    }

    /// With one more keyword, whose key is given as the atom.
    pub fn with_pair(mut self, key: Term, value: Term) -> Result<Frame, AllocError>
        ensures { IfOk result (λ frame. frame ≡ with_pair self key value) }
    {
        self.keywords.push((key, value))?;
        Ok(self)
    }

    /// The term that the bracket encloses, closed here, where there is one.
    pub fn enclosed(self, alloc: Global) -> Result<Option<Term>, AllocError>
        ensures { IfOk result (λ term. term ≡ enclosed self.bracket self.items self.entries
            self.keywords) }
    {
        let Frame {
            bracket,
            items,
            entries,
            keywords,
        } = self;
        match bracket {
            Bracket::List => list(alloc, items, &entries, keywords),
            Bracket::Tuple => tuple(alloc, items, &entries, keywords),
            Bracket::Map => mapping(&items, entries, keywords),
        }
    }
}

impl Hole {
    /// How many levels lie between the bracket's term and the term in the hole.
    pub fn cost(&self) -> u8
        ensures value { result ≡ cost self.now }
        ensures few { result ≤ 3 }
    {
        match self.slot {
            Slot::Keyword(_) => keyword_cost(self.frame.bracket()),
            Slot::Element | Slot::EntryKey | Slot::EntryValue(_) => 1,
        }
    }
}
