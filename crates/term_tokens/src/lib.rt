//! The tokens that the text of a literal Elixir term is made of, and where its first one is refused.
//!
//! `Tokens.antt` says when a text begins with a token, `Local.antt` where and why the rest of a text is refused at a
//! place between two tokens, without a lexer. `first_token` answers the token at the front, or the first of what is
//! against it there. `skip_blanks` passes over blanks and comments.
#![tactic(auto)]

mod blanks;
mod bracket;
mod bytes;
mod cause;
mod expected;
mod fault;
mod lexer;
mod names;
mod numbers;
mod signs;
mod strings;
mod stuck;
mod token;
mod words;

pub use blanks::skip_blanks;
pub use bracket::Bracket;
pub use bytes::{is_name_byte, is_name_mark, is_name_start, is_utf8, opens_interpolation};
pub use cause::{Feature, TermCause};
pub use expected::Expected;
pub use fault::Fault;
pub use lexer::first_token;
pub use names::is_bare_atom;
pub use token::{Closing, Token, WordKind};
