//! Literal Elixir terms as values, and what each is seen from outside.
//!
//! `Views.antt` says when a term is an atom, a string, a list, a tuple, a pair, a map or a keyword list. `as_atom`
//! and the others answer by these definitions. It stands on the texts of `mx_base`.
#![tactic(auto)]

mod apps;
mod term;
mod views;

pub use apps::{app_named, app_of};
pub use term::{Pairs, Term, Terms};
