//! The real file system and standard output, as the stores, folders and sinks that programs are
//! written over. They tell no contents: what a disk holds and what a terminal took can't be proved.
//! What is proved is when each counts a fault, which folders are out, and what a listing looks like.
#![tactic(auto)]

mod builds;
mod counted;
mod files;
mod host_folder;
mod host_sink;
mod host_store;
mod walk;
mod words;

pub use host_folder::HostFolder;
pub use host_sink::HostSink;
pub use host_store::HostStore;
pub use words::host_words;
