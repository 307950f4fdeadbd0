//! The built-in compiler: what the unit files of a job mean.
//!
//! `specs/` says it without the compiler: `Faces.antt` how a unit tells others its values, `Values.antt` what an
//! expression is worth, `Lines.antt` what each line defines, `Warnings.antt` what is warned of, `Said.antt` in which
//! words, and `Units.antt` what all files of a job give together.
//!
//! The compiler reads each file (`source`), hears its lines in turn (`scope`), and writes what it has to say of it
//! (`report`) and its face (`face`).
#![tactic(auto)]

mod compile;
mod compiler;
mod complaint;
mod face;
mod name_set;
mod needs;
mod numbers;
mod product;
mod scope;
mod source;
mod table;
mod value;
mod warning;

pub use compile::compile_unit;
pub use compiler::{UnitCompiler, UnitMaker, UnitPartition};
