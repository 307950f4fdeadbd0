//! The unit language: what a unit file says, line by line.
//!
//! `specs/` says it without the reader: `Tokens.antt` the tokens of a line, `Grammar.antt` what they say,
//! `Lines.antt` what a line says, `Spells.antt` which unit a text spells, and `Faults.antt` the first fault of
//! one that spells none. `parse_unit` answers the unit, exactly where there is one, or else that fault.
//!
//! The reader goes once from left to right: `parse` over the lines, `line` over the tokens of one, which
//! `lexer` finds, and `state` takes each token in, with what is open in an expression on a stack of its own.
#![tactic(auto)]

mod blanks;
mod bytes;
mod error;
mod level;
mod lexer;
mod line;
mod parse;
mod progress;
mod state;
mod token;
mod unit;
mod words;

pub use bytes::is_name;
pub use error::{UnitCause, UnitError};
pub use parse::{faults_stand_apart, one_fault, one_unit, parse_unit, some_answer};
pub use unit::{Expression, Line, Lines, Statement, Unit};
