// What a build holds.
ghost use Rattle.std.specs.Prelude.{◌≡◌, IsTrue};
ghost use Rattle.tree_store.specs.Holding.{has_any, nothing};

use crate::contents::Contents;
use mx_base::Bytes;
use std::alloc::Global;

/// What a build holds: its files, and the bytes of its mark where one stands.
#[derive(Drop)]
pub struct Holding {
    pub files: Contents,
    pub mark: Option<Bytes>,
}

impl Holding {
    /// No file and no mark. It takes no memory.
    pub fn new(alloc: Global) -> Holding
        ensures { result ≡ nothing }
    {
        Holding {
            files: Contents::new(alloc),
            mark: None,
        }
    }

    /// Whether there is a file or a mark.
    pub fn has_any(&self) -> bool
        ensures { result ≡ has_any self.now }
    {
        self.mark.is_some() || !self.files.is_empty()
    }
}
