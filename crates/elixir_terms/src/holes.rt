// Where terms are wanted, from the innermost open bracket out.
ghost use Rattle.std.specs.Prelude.{◌≡◌, ◌+◌, ◌<◌, ◌≤◌, [], ◌∷◌, length, Some, IsTrue, ◌↔◌, MatchOption};
ghost use Rattle.elixir_terms.specs.Levels.{Enters, HasRoom, levels};
ghost use Rattle.elixir_terms.specs.Machine.{is_none};
ghost use Rattle.elixir_terms.specs.Limits.{GivesWhere};
ghost use Rattle.elixir_terms.specs.Within.{deepest};

use crate::frame::Hole;
use mx_base::Stack;
use std::alloc::Global;
use std::marker::Model;
use term_tokens::{Fault, TermCause};

/// The deepest term that is read, in levels of lists, tuples and maps.
const DEEPEST: u8 = 64;

/// The holes in the open brackets, the innermost first, which are at most 64 levels deep.
#[derive(Drop)]
pub struct Holes {
    open: Stack<Hole>,
    depth: u8,
}

impl Model for Holes {
    ghost use Rattle.std.specs.Prelude.{◌≡◌, ◌≤◌, List};
    ghost use Rattle.elixir_terms.specs.declared.frame.Hole.{Hole};
    ghost use Rattle.elixir_terms.specs.Levels.{levels};
    ghost use Rattle.elixir_terms.specs.Within.{deepest};
    ghost use Rattle.term_values.specs.contracts.term.Term as term;
    ghost use Rattle.std.specs.Coded.{codes};

    ghost Value = { List Hole };

    ghost coded = { Prim.hlevel (codes, term.the_row.coded) };

    ghost view = { λ holes. holes.open };

    ghost invariant = { λ holes. (holes.depth ≡ levels holes.open) × (holes.depth ≤ deepest) };
}

impl Holes {
    /// No bracket is open.
    pub fn new(alloc: Global) -> Holes
        ensures { result ≡ [] }
    {
        Holes {
            open: Stack::new(alloc),
            depth: 0,
        }
    }

    /// Whether a list, a tuple or a map may stand in the innermost hole.
    pub fn has_room(&self) -> bool
        ensures { IsTrue result ↔ HasRoom self.now }
    {
        self.depth < DEEPEST
    }

    /// Whether one may stand as an element in the innermost hole's bracket.
    pub fn has_room_inside(&self) -> bool
        ensures { IsTrue result ↔ 1 + levels self.now < deepest }
    {
        self.depth + 1 < DEEPEST
    }

    /// Whether there is none.
    pub fn is_empty(&self) -> bool
        ensures { result ≡ is_none self.now }
    {
        self.len() == 0
    }

    /// How many there are.
    pub fn len(&self) -> usize
        ensures value { result ≡ length self.now }
        ensures few { result ≤ 64 }
    {
        self.open.len()
    }

    /// One more hole, inside of the others, where its levels allow it. The fault stands so far from the end.
    pub fn entered(self, hole: Hole, left: usize) -> Result<Holes, Fault>
        ensures { GivesWhere (Enters hole self) left result (Some (hole ∷ self)) }
    {
        let Holes { mut open, depth } = self;
        let depth = hole.cost() + depth;
        if depth > DEEPEST {
            return Err(Fault {
                left,
                cause: TermCause::TooDeep,
            });
        }
        open.push(hole)?;
        Ok(Holes { open, depth })
    }

    /// Takes the innermost hole.
    pub fn pop(&mut self) -> Option<Hole>
        ensures { MatchOption result ((self.old ≡ []) × (self.new ≡ []))
            (λ hole. self.old ≡ hole ∷ self.new) }
    {
        let hole = self.open.pop()?;
        self.depth -= hole.cost();
        Some(hole)
    }
}
