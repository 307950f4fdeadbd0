// What can't live together.
ghost use Rattle.std.specs.Prelude.{◌≡◌};
ghost use Rattle.converger.specs.Said.{rule_said};

use mx_base::ListOf;

/// By what rule two declarations of an app can't live together.
#[derive(Clone, Copy, PartialEq, Eq, Drop)]
pub enum Rule {
    /// They have two sources.
    V1,
    /// They are compiled in two ways.
    V2,
    /// The winner's version isn't one that the other asks for.
    V3,
    /// The other is reached in an environment or for a target that the winner, in the root, isn't for.
    V4,
}

impl Rule {
    /// Its name.
    pub fn said(self) -> &'static [u8]
        ensures { result.now ≡ rule_said self }
    {
        match self {
            Rule::V1 => b"V1",
            Rule::V2 => b"V2",
            Rule::V3 => b"V3",
            Rule::V4 => b"V4",
        }
    }
}

/// A row that can't live together with the winner of its app. Both are places in the list of rows.
#[derive(Clone, Copy, PartialEq, Eq, Drop)]
pub struct Divergence {
    pub rule: Rule,
    pub winner: u32,
    pub other: u32,
}

/// Divergences in the order of their rows, and of one row in the order of the rules.
pub type Divergences = ListOf<Divergence>;
