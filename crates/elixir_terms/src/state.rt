// What the reader knows between two tokens.
ghost use Rattle.std.specs.Prelude.{◌≡◌, ◌≤◌, ℕ, List, [], IfOk, IsTrue, IsFalse, ◌↔◌};
ghost use Rattle.elixir_terms.specs.declared.frame.Slot.TheVariants.{Keyword, EntryValue};
ghost use Rattle.term_tokens.specs.declared.token.Token.TheVariants.{Words};
ghost use Rattle.term_tokens.specs.declared.token.WordKind.TheVariants.{Strings};
ghost use Rattle.elixir_terms.specs.Levels.{Enters};
ghost use Rattle.elixir_terms.specs.Machine.{placed, placed_in, begun, closed, at_part, at_key, at_element, at_separator, at_arrow, step, expected, depth, NewKeyword, NewEntry, BeginsWell, PartWell, ElementFits, HasLevels};
ghost use Rattle.elixir_terms.specs.Limits.{GivesWhere};

use crate::enclosed::word_list;
use crate::frame::{Hole, Slot, closing_of, is_closed_by, part_slot};
use crate::holes::Holes;
use crate::opened::Opened;
use mx_base::Text;
use std::alloc::{AllocError, Global};
use term_tokens::{Bracket, Closing, Expected, Fault, TermCause, Token};
use term_values::Term;

/// What the reader knows between two tokens.
#[derive(Drop)]
pub enum State {
    /// A term is wanted: the text's own, or one for the innermost hole.
    Value {
        holes: Holes,
    },
    /// Directly after an opening bracket or a comma.
    Element {
        frame: Opened,
        holes: Holes,
    },
    /// Directly after a part of a bracket.
    Separator {
        frame: Opened,
        holes: Holes,
    },
    /// Directly after the key of a map's entry.
    Arrow {
        key: Term,
        frame: Opened,
        holes: Holes,
    },
    /// The text's term is whole.
    Done {
        term: Term,
    },
}

impl State {
    /// What may stand next.
    pub fn expected(&self) -> Expected
        ensures { result ≡ expected self.now }
    {
        let none = Expected {
            term: false,
            key: false,
            closing: None,
            comma: false,
            arrow: false,
            outermost: false,
        };
        match self {
            State::Value { holes } => Expected {
                term: true,
                outermost: holes.is_empty(),
                ..none
            },
            State::Element { frame, .. } => Expected {
                term: frame.takes_part(),
                key: frame.takes_key(),
                closing: Some(closing_of(frame.bracket())),
                ..none
            },
            State::Separator { frame, .. } => Expected {
                closing: Some(closing_of(frame.bracket())),
                comma: true,
                ..none
            },
            State::Arrow { .. } => Expected {
                arrow: true,
                ..none
            },
            State::Done { .. } => none,
        }
    }

    /// How many brackets are open outside of the innermost one, directly before or after a key of a map.
    pub fn depth(&self) -> usize
        ensures value { result ≡ depth self.now }
        ensures few { result ≤ 64 }
    {
        match self {
            State::Element { holes, .. } | State::Arrow { holes, .. } => holes.len(),
            _ => 0,
        }
    }

    /// Whether words are within the limit on levels here, where a term may stand.
    #[tactic(auto, using(crate::proofs::DepthLemmas::inside_well, crate::proofs::DepthLemmas::well_inside))]
    pub fn has_room_for_words(&self) -> bool
        ensures room { IsTrue result → IsTrue (expected self.now).term
            → HasLevels self.now (Words Strings []) }
        ensures deep { IsFalse result → IsTrue (expected self.now).term
            × (HasLevels self.now (Words Strings []) → ⊥) }
    {
        match self {
            State::Value { holes } => holes.has_room(),
            State::Element { frame, holes } => !frame.takes_part() || holes.has_room_inside(),
            State::Separator { .. } | State::Arrow { .. } | State::Done { .. } => true,
        }
    }

    /// Whether the token is a keyword's key that equals an earlier key of its map.
    pub fn repeats_keyword(&self, alloc: Global, token: &Token) -> Result<bool, AllocError>
        ensures { IfOk result (λ repeats. IsFalse repeats ↔ NewKeyword self.now token.now) }
    {
        match (self, token) {
            (State::Element { frame, .. }, Token::Key(key)) => frame.has_key(
                alloc,
                &Term::Atom(key.clone()?),
            ),
            _ => Ok(false),
        }
    }

    /// Whether the key of an entry that was read last equals an earlier key of its map.
    pub fn repeats_entry(&self, alloc: Global) -> Result<bool, AllocError>
        ensures { IfOk result (λ repeats. IsFalse repeats ↔ NewEntry self.now) }
    {
        match self {
            State::Arrow { key, frame, .. } => frame.has_key(alloc, key),
            _ => Ok(false),
        }
    }

    /// The state after one more token, which stands so far from the end of the text, or a fault there where it
    /// makes too many levels.
    pub fn step(self, alloc: Global, token: Token, left: usize) -> Result<State, Fault>
        ensures { GivesWhere (HasLevels self token) left result (step self token) }
    {
        match self {
            State::Value { holes } => begun(alloc, token, holes, left),
            State::Element { frame, holes } => at_element(alloc, frame, holes, token, left),
            State::Separator { frame, holes } => at_separator(alloc, frame, holes, token, left),
            State::Arrow { key, frame, holes } => at_arrow(key, frame, holes, token, left),
            State::Done { .. } => Err(unexpected(left)),
        }
    }
}

/// The fault of a token that may not stand at the place. The reader asks for none.
fn unexpected(left: usize) -> Fault
    ensures left { result.left ≡ left }
{
    Fault {
        left,
        cause: TermCause::Unexpected,
    }
}

/// A whole term goes into the innermost hole.
fn placed(alloc: Global, term: Term, mut holes: Holes) -> Result<State, AllocError>
    ensures { IfOk result (λ state. state ≡ placed term holes) }
{
    match holes.pop() {
        None => Ok(State::Done { term }),
        Some(Hole { frame, slot }) => placed_in(alloc, slot, frame, term, holes),
    }
}

/// A whole term goes into a slot of a bracket.
fn placed_in(
    alloc: Global,
    slot: Slot,
    frame: Opened,
    term: Term,
    holes: Holes,
) -> Result<State, AllocError>
    ensures { IfOk result (λ state. state ≡ placed_in slot frame term holes) }
{
    let frame = match slot {
        Slot::Element => frame.with_item(term)?,
        Slot::Keyword(key) => frame.with_keyword(alloc, key, term)?,
        Slot::EntryKey => {
            return Ok(State::Arrow {
                key: term,
                frame,
                holes,
            });
        }
        Slot::EntryValue(key) => frame.with_entry(alloc, key, term)?,
    };
    Ok(State::Separator { frame, holes })
}

/// A term begins where one is wanted.
fn begun(alloc: Global, token: Token, holes: Holes, left: usize) -> Result<State, Fault>
    ensures { GivesWhere (BeginsWell token holes) left result (begun token holes) }
{
    match token {
        Token::Atom(name) => Ok(placed(alloc, Term::Atom(name), holes)?),
        Token::Int(number) => Ok(placed(alloc, Term::Int(number), holes)?),
        Token::Str(bytes) => Ok(placed(alloc, Term::Str(bytes), holes)?),
        Token::Words(kind, words) if holes.has_room() => Ok(placed(
            alloc,
            word_list(alloc, kind, words)?,
            holes,
        )?),
        Token::Open(bracket) if holes.has_room() => Ok(State::Element {
            frame: Opened::new(alloc, bracket),
            holes,
        }),
        Token::Words(..) | Token::Open(_) => Err(Fault {
            left,
            cause: TermCause::TooDeep,
        }),
        _ => Err(unexpected(left)),
    }
}

/// A bracket closes.
fn closed(
    alloc: Global,
    frame: Opened,
    closing: Closing,
    holes: Holes,
    left: usize,
) -> Result<State, Fault>
    ensures { GivesWhere (Unit {0}) left result (closed frame closing holes) }
{
    if !is_closed_by(frame.bracket(), closing) {
        return Err(unexpected(left));
    }
    match frame.enclosed(alloc)? {
        Some(term) => Ok(placed(alloc, term, holes)?),
        None => Err(unexpected(left)),
    }
}

/// A term without a keyword's key begins in a bracket.
fn at_part(
    alloc: Global,
    frame: Opened,
    holes: Holes,
    token: Token,
    left: usize,
) -> Result<State, Fault>
    ensures { GivesWhere (PartWell frame holes token) left result (at_part frame holes token) }
{
    if !frame.takes_part() {
        return Err(unexpected(left));
    }
    let slot = part_slot(frame.bracket());
    let holes = holes.entered(Hole { frame, slot }, left)?;
    begun(alloc, token, holes, left)
}

/// A keyword begins in a bracket.
fn at_key(frame: Opened, holes: Holes, key: Text, left: usize) -> Result<State, Fault>
    ensures { GivesWhere (Enters (record { frame = frame; slot = Keyword key }) holes) left result
        (at_key frame holes key) }
{
    if !frame.takes_key() {
        return Err(unexpected(left));
    }
    let slot = Slot::Keyword(key);
    let holes = holes.entered(Hole { frame, slot }, left)?;
    Ok(State::Value { holes })
}

/// A token directly after an opening bracket or a comma.
fn at_element(
    alloc: Global,
    frame: Opened,
    holes: Holes,
    token: Token,
    left: usize,
) -> Result<State, Fault>
    ensures { GivesWhere (ElementFits frame holes token) left result
        (at_element frame holes token) }
{
    match token {
        Token::Close(closing) => closed(alloc, frame, closing, holes, left),
        Token::Key(key) => at_key(frame, holes, key, left),
        token => at_part(alloc, frame, holes, token, left),
    }
}

/// A token directly after a part of a bracket.
fn at_separator(
    alloc: Global,
    frame: Opened,
    holes: Holes,
    token: Token,
    left: usize,
) -> Result<State, Fault>
    ensures { GivesWhere (Unit {0}) left result (at_separator frame holes token) }
{
    match token {
        Token::Comma => Ok(State::Element { frame, holes }),
        Token::Close(closing) => closed(alloc, frame, closing, holes, left),
        _ => Err(unexpected(left)),
    }
}

/// A token directly after the key of a map's entry.
fn at_arrow(
    key: Term,
    frame: Opened,
    holes: Holes,
    token: Token,
    left: usize,
) -> Result<State, Fault>
    ensures { GivesWhere (Enters (record { frame = frame; slot = EntryValue key }) holes) left
        result (at_arrow key frame holes token) }
{
    let Token::Arrow = token else {
        return Err(unexpected(left));
    };
    let slot = Slot::EntryValue(key);
    let holes = holes.entered(Hole { frame, slot }, left)?;
    Ok(State::Value { holes })
}
