//! Literal Elixir terms: the values, the reader of their text, and their printing.
//!
//! A text is cut into tokens with blanks and comments between them, and the tokens are a term by a grammar.
//! `specs/` says both without the reader: `Tokens.antt` the tokens, `Grammar.antt` the terms, `Spells.antt`
//! joins them, and `Within.antt` has the limits. `Refusals.antt` says where and why a text is refused. `read`
//! answers the term that the whole text spells within the limits, or the text's refusal. `one_reading` and
//! `one_refusal` say that there is one at most, and `some_answer` that there is one.
//!
//! The reader goes once from left to right and keeps the open brackets on a stack of its own: `blanks` and
//! `lexer` find the next token, `state` takes it in, `holes` counts the levels, `enclosed` makes the term of a
//! bracket that closes, and `opened` tells whether a map repeats a key.
#![tactic(auto)]

mod enclosed;
mod error;
mod frame;
mod holes;
mod keys;
mod laws;
mod opened;
mod reading;
mod state;

pub use error::TermError;
pub use laws::{no_refusal, one_refusal, some_answer};
pub use reading::{one_reading, read};
pub use term_print::print;
pub use term_tokens::{Feature, TermCause};
pub use term_values::{Pairs, Term, Terms};
