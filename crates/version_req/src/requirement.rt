// Comparisons and requirements, which contracts see without where they lie in memory.
ghost use Rattle.std.specs.Prelude.{◌≡◌, ◌⊎◌, ℕ, List, IfOk, IfErr};
ghost use Rattle.version_req.specs.Condition.{Alternatives};
ghost use Rattle.version_req.specs.Grammar.{Spells};
ghost use Rattle.version_req.specs.Refusal.{HasCause, IsRefusedAt};

use crate::error::ReqError;
use crate::operator::Operator;
use crate::parse::{self, Fault};
use mx_base::ListOf;
use semver::Version;
use std::alloc::{AllocError, Global};
use std::marker::Model;

/// An operator and its operand, as `>= 1.2.0`.
#[derive(Drop)]
pub struct Comparison {
    pub(crate) operator: Operator,
    pub(crate) version: Version,
    /// Whether the version was written with its patch, which may be left out after `~>`.
    pub(crate) patch_written: bool,
}

impl Model for Comparison {
    ghost use Rattle.semver.specs.Identifiers.{parts_of};
    ghost use Rattle.version_req.specs.Condition.{Condition};

    ghost Value = { Condition };

    ghost view = { λ c. record {
      operator = c.operator;
      operand = parts_of c.version;
      patch_written = c.patch_written;
    } };
}

impl Clone for Comparison {
    ghost use Rattle.std.specs.Prelude.{◌≡◌};

    ghost is_clone = { λ comparison copy. copy ≡ comparison };

    fn clone(&self) -> Result<Comparison, AllocError> {
        Ok(Comparison {
            operator: self.operator,
            version: self.version.clone()?,
            patch_written: self.patch_written,
        })
    }
}

/// What a version has to meet: all comparisons of any one alternative.
#[derive(Drop)]
pub struct Requirement {
    pub(crate) alternatives: ListOf<ListOf<Comparison>>,
}

impl Model for Requirement {
    ghost use Rattle.version_req.specs.Condition.{Alternatives};

    ghost Value = { Alternatives };

    ghost view = { λ requirement. requirement.alternatives };
}

impl Clone for Requirement {
    ghost use Rattle.std.specs.Prelude.{◌≡◌};

    ghost is_clone = { λ requirement copy. copy ≡ requirement };

    fn clone(&self) -> Result<Requirement, AllocError> {
        Ok(Requirement {
            alternatives: self.alternatives.clone()?,
        })
    }
}

impl Requirement {
    /// The requirement that the whole text spells.
    pub fn parse(alloc: Global, text: &[u8]) -> Result<Requirement, ReqError>
        ensures ok { IfOk result (Spells text.now) }
        ensures only { (requirement : Alternatives) → Spells text.now requirement
            → IfOk result (λ answer. answer ≡ requirement) }
        ensures err { IfErr result (HasCause text.now) }
    {
        match parse::alternatives(alloc, text) {
            Ok(alternatives) => Ok(Requirement { alternatives }),
            Err(Fault::Stuck(stuck)) => {
                let at = text.len() - stuck.left;
                Err(ReqError::Refused { at: at as u64 })
            }
            Err(Fault::OutOfMemory) => Err(ReqError::OutOfMemory),
        }
    }
}

/// No text spells two requirements.
pub fn one_requirement()
    ensures { (text : List ℕ) (a b : Alternatives) → Spells text a → Spells text b → a ≡ b }
{}

/// Each text spells a requirement, or is refused at a place.
pub fn each_is_read_or_refused()
    ensures { (text : List ℕ) → ((requirement : Alternatives) × Spells text requirement)
        ⊎ ((at : ℕ) × IsRefusedAt text at) }
{}

/// A text is refused at one place, and only where it spells nothing.
pub fn one_refusal()
    ensures places { (text : List ℕ) (at other : ℕ) → IsRefusedAt text at → IsRefusedAt text other
        → at ≡ other }
    ensures apart { (text : List ℕ) (at : ℕ) (requirement : Alternatives) → IsRefusedAt text at
        → Spells text requirement → ⊥ }
{}
