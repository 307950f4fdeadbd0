// Files, and lists of them in order.
ghost use Rattle.std.specs.Prelude.{◌≡◌, [], IfOk};
ghost use Rattle.mx_base.specs.Order.{AreInOrder};

use crate::bytes::Bytes;
use crate::path::RelPath;
use std::alloc::{AllocError, Global};
use std::marker::Model;

/// A file: its path, from the folder that it is spoken of in, and its bytes.
#[derive(Clone, PartialEq, Eq, Drop)]
pub struct File {
    /// Where it lies.
    pub path: RelPath,
    /// What it holds.
    pub bytes: Bytes,
}

/// Files of different paths, in the order of their paths, which contracts see as the list of them.
#[derive(Drop)]
pub struct Files {
    files: Vec<File>,
}

impl Model for Files {
    ghost use Rattle.std.specs.Prelude.{List};
    ghost use Rattle.mx_base.specs.declared.file.File.{File};

    ghost Value = { List File };

    ghost use Rattle.mx_base.specs.Order.{AreInOrder};

    ghost view = { λ files. files.files.items };

    ghost invariant = { λ files. AreInOrder files.files.items };
}

impl Files {
    /// No files. It takes no memory.
    pub fn new(alloc: Global) -> Files
        ensures { result ≡ [] }
    {
        Files {
            files: Vec::new(alloc),
        }
    }

    /// Files that are in order already. It takes no memory.
    pub fn from_vec(files: Vec<File>) -> Files
        requires { AreInOrder files.items }
        ensures { result ≡ files.items }
    {
        Files { files }
    }

    /// Gives the vector back.
    pub fn into_vec(self) -> Vec<File>
        ensures { result.items ≡ self }
    {
        let Files { files } = self;
        files
    }

    /// The files.
    pub fn as_slice(&self) -> &[File]
        ensures value { result.now ≡ self.now }
        ensures in_order { AreInOrder self.now }
    {
        self.files.as_slice()
    }
}

impl Clone for Files {
    ghost use Rattle.std.specs.Prelude.{◌≡◌};

    ghost is_clone = { λ files copy. copy ≡ files };

    fn clone(&self) -> Result<Files, AllocError> {
        Ok(Files {
            files: self.files.clone()?,
        })
    }
}
