// Open brackets, with the codes of their keys.
ghost use Rattle.std.specs.Prelude.{◌≡◌, IfOk, IsFalse, ◌↔◌, true};
ghost use Rattle.term_print.specs.Grammar.{enclosed};
ghost use Rattle.elixir_terms.specs.Machine.{empty, takes_key, takes_part, with_item, with_entry, with_keyword, NewIn};
ghost use Rattle.std.specs.BTreeSet.{UpdatesBy};
ghost use Rattle.mx_base.specs.Order.{text_cmp};
ghost use Rattle.elixir_terms.specs.Codes.{keys_in};
ghost use Rattle.elixir_terms.specs.KeyCode.{term_code};

use crate::frame::Frame;
use crate::keys::code_of;
use mx_base::{Bytes, Text};
use std::alloc::{AllocError, Global};
use std::collections::BTreeSet;
use std::marker::Model;
use term_tokens::Bracket;
use term_values::Term;

/// An open bracket, and in a map's the codes of the keys that were read in it.
#[derive(Drop)]
pub struct Opened {
    frame: Frame,
    known: BTreeSet<Bytes>,
}

impl Model for Opened {
    ghost use Rattle.std.specs.Coded.{codes};
    ghost use Rattle.elixir_terms.specs.declared.frame.Frame.{Frame};
    ghost use Rattle.term_values.specs.contracts.term.Term as term;
    ghost use Rattle.elixir_terms.specs.Codes.{HoldsCodes};

    ghost Value = { Frame };

    ghost coded = { Prim.hlevel (codes, term.the_row.coded) };

    ghost view = { λ opened. opened.frame };

    ghost invariant = { λ opened. HoldsCodes opened.frame opened.known };
}

impl Opened {
    pub fn new(alloc: Global, bracket: Bracket) -> Opened
        ensures { result ≡ empty bracket }
    {
        Opened {
            frame: Frame::new(alloc, bracket),
            known: BTreeSet::new(alloc),
        }
    }

    /// What kind of bracket it is.
    pub fn bracket(&self) -> Bracket
        ensures { result ≡ self.now.bracket }
    {
        self.frame.bracket
    }

    /// Whether a keyword may stand here. In a tuple it needs an element before it.
    pub fn takes_key(&self) -> bool
        ensures { result ≡ takes_key self.now }
    {
        self.frame.takes_key()
    }

    /// Whether an element or an entry may stand here: not after a keyword.
    pub fn takes_part(&self) -> bool
        ensures { result ≡ takes_part self.now }
    {
        self.frame.takes_part()
    }

    /// With one more element.
    pub fn with_item(self, term: Term) -> Result<Opened, AllocError>
        ensures { IfOk result (λ opened. opened ≡ with_item self term) }
    {
        let Opened { mut frame, known } = self;
        frame.items.push(term)?;
        Ok(Opened { frame, known })
    }

    /// With one more entry.
    #[tactic(auto, using(crate::proofs::CodeLemmas::holds_entry))]
    pub fn with_entry(self, alloc: Global, key: Term, value: Term) -> Result<Opened, AllocError>
        ensures { IfOk result (λ opened. opened ≡ with_entry self key value) }
    {
        let Opened { frame, known } = self;
        let known = with_code(alloc, known, &key)?;
        let frame = frame.with_entry(key, value)?;
        Ok(Opened { frame, known })
    }

    /// With one more keyword.
    #[tactic(auto, using(crate::proofs::CodeLemmas::holds_keyword))]
    pub fn with_keyword(self, alloc: Global, key: Text, value: Term) -> Result<Opened, AllocError>
        ensures { IfOk result (λ opened. opened ≡ with_keyword self key value) }
    {
        let Opened { frame, known } = self;
        let key = Term::Atom(key);
        let known = with_code(alloc, known, &key)?;
        let frame = frame.with_pair(key, value)?;
        Ok(Opened { frame, known })
    }

    /// Whether it is a map's, and has the key already.
    #[tactic(auto, using(crate::proofs::CodeLemmas::new_by))]
    pub fn has_key(&self, alloc: Global, key: &Term) -> Result<bool, AllocError>
        ensures { IfOk result (λ has. IsFalse has
            ↔ NewIn self.now.bracket key.now (keys_in self.now)) }
    {
        match self.frame.bracket {
            Bracket::List | Bracket::Tuple => Ok(false),
            Bracket::Map => Ok(self.known.contains(&code_of(alloc, key)?)),
        }
    }

    /// The term that the bracket encloses, closed here, where there is one.
    pub fn enclosed(self, alloc: Global) -> Result<Option<Term>, AllocError>
        ensures { IfOk result (λ term. term ≡ enclosed self.bracket self.items self.entries
            self.keywords) }
    {
        self.frame.enclosed(alloc)
    }
}

/// The codes with that of one more key.
fn with_code(
    alloc: Global,
    mut known: BTreeSet<Bytes>,
    key: &Term,
) -> Result<BTreeSet<Bytes>, AllocError>
    ensures { IfOk result (λ codes. UpdatesBy text_cmp (text_cmp (term_code key.now)) known codes
        true) }
{
    known.insert(code_of(alloc, key)?)?;
    Ok(known)
}
