//! The lock of a project: which release of each dependency was picked.
//!
//! `entry` has what stands for an app, `lock` the whole. It stands on the terms of `elixir_terms` and the
//! requirements and versions of `version_req`. A layer above may rely on this: a `Lock` keeps to
//! what its text can say, `read_lock` answers exactly what a text says, or why it is refused, and `write_lock`
//! gives the one text of a lock, which reads back.
#![tactic(auto)]

mod deps;
mod entries;
mod entry;
mod error;
mod laws;
mod lock;
mod reader;
mod release;
mod scalars;
mod writing;
mod written;

pub use entry::{Entry, HexEntry, LockDep, LockDeps};
pub use error::LockError;
pub use laws::{one_lock, reads_back, some_lock, writes_back};
pub use lock::Lock;
pub use reader::read_lock;
pub use writing::write_lock;
