//! What the text of a literal Elixir term is, and its printing.
//!
//! `Grammar.antt` says which terms tokens stand for, and `Spells.antt` which text spells a term. `print` writes the
//! text of a term on one line (`Printed.antt`), and that text spells it.
#![tactic(auto)]

mod printer;
mod scalars;

pub use printer::print;
