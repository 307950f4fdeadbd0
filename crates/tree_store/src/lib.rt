//! Where the files of a project and of its builds are kept. Programs are written over the traits
//! `Store` and `Folder`, whose clauses say what each call leaves, where the store tells its files.
#![tactic(auto)]

mod contents;
mod filling;
mod folder;
mod holding;
mod key;
mod mem_folder;
mod mem_store;
mod store;

pub use contents::{Contents, files_in_order};
pub use filling::put_files;
pub use folder::Folder;
pub use holding::Holding;
pub use key::BuildKey;
pub use mem_folder::MemFolder;
pub use mem_store::{ConstStore, MemStore};
pub use store::{Store, StoreFault};
