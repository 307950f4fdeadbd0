//! The small types that every crate of the project shares.
#![tactic(auto)]

mod build;
mod bytes;
mod count;
mod decimal;
mod digest;
mod fault_plan;
mod file;
mod layout;
mod list_of;
mod listing;
mod mem_sink;
mod name;
mod path;
mod path_folder;
mod path_join;
mod row;
mod rows_text;
mod shared;
mod sink;
mod stack;
mod text;
mod utf8;
mod variable;

pub use build::{HOST, build_name, different_builds};
pub use bytes::Bytes;
pub use count::Count;
pub use decimal::push_decimal;
pub use digest::Digest32;
pub use fault_plan::{FaultPlan, Faults, NoFaults};
pub use file::{File, Files};
pub use layout::{BUILD, DEPS, LOCK, MANIFEST, REGISTRY, SETTINGS};
pub use list_of::ListOf;
pub use listing::{Listing, listing_of};
pub use mem_sink::{MemSink, NullSink};
pub use name::{AppName, NameError, Names};
pub use path::RelPath;
pub use path_join::PathError;
pub use row::FileRow;
pub use rows_text::{listing_digest, listing_text};
pub use shared::Shared;
pub use sink::{Failed, Sink};
pub use stack::Stack;
pub use text::{Text, copy_text};
pub use variable::{Variable, Variables};
