//! Where a text is refused, over any language: definitions and laws, and where a reader of fields ends early.
//!
//! A language is given by which texts it has. A text that it doesn't have is refused at the length
//! of its longest prefix that begins one that it has. `specs/Refusal.antt` says so once, and the
//! readers' own contracts are instances of it. `proofs/` has the laws that hold of every language:
//! a text is refused at one place at most, and not where the language has it; and where a reader
//! that can still be led to an end is stuck, there the text is refused.
//!
//! `specs/Field.antt` is about texts that are made of fields, each of which shows by itself where it
//! ends: where a field sticks, the text that is made of fields sticks too.
#![tactic(auto)]

mod stuck;

pub use stuck::{Fault, Stuck, stuck_at};
