// Files in the order of their paths.
ghost use Rattle.std.specs.Prelude.{◌≡◌, ◌↔◌, List, [], IsTrue, IfOk, OnOk, OnErr};
ghost use Rattle.std.specs.Option.{option_copied};
ghost use Rattle.mx_base.specs.declared.file.File.{File};
ghost use Rattle.mx_base.specs.Order.{AreInOrder, ArePathsInOrder, bytes_at};
ghost use Rattle.tree_store.specs.Files.{put_file, put_all, paths_below, without_file};

use mx_base::{Bytes, File, Files, RelPath};
use std::alloc::{AllocError, Global};
use std::collections::BTreeMap;
use std::marker::Model;

/// Files of different paths, which contracts see as the list of them in the order of paths.
#[derive(Drop)]
pub struct Contents {
    by_path: BTreeMap<RelPath, Bytes>,
}

impl Model for Contents {
    ghost use Rattle.std.specs.Prelude.{List, map};
    ghost use Rattle.mx_base.specs.declared.file.File.{File};
    ghost use Rattle.tree_store.specs.Contents.{file_of};

    ghost Value = { List File };

    ghost view = { λ c. map file_of c.by_path.entries };
}

impl Contents {
    pub fn new(alloc: Global) -> Contents
        ensures { result ≡ [] }
    {
        Contents {
            by_path: BTreeMap::new(alloc),
        }
    }

    /// Writes a file, in place of one of its path.
    #[tactic(auto, using(crate::proofs::FilesLemmas::map_insert_entry))]
    pub fn put(&mut self, path: RelPath, bytes: Bytes) -> Result<(), AllocError>
        ensures ok { OnOk result (self.new ≡ put_file (record { path = path; bytes = bytes }) self.old) }
        ensures err { OnErr result (self.new ≡ self.old) }
        ensures in_order { OnOk result (AreInOrder self.old) }
    {
        self.by_path.insert(path, bytes)?;
        Ok(())
    }

    /// Removes the file of a path, if there is one.
    pub fn remove(&mut self, path: &RelPath)
        ensures { self.new ≡ without_file path.now self.old }
    {
        // This call tells that the paths are in order.
        let _ = self.by_path.len();
        self.by_path.remove(path);
    }

    pub(crate) fn clear(&mut self)
        ensures { self.new ≡ [] }
    {
        self.by_path.clear();
    }

    pub fn is_empty(&self) -> bool
        ensures { IsTrue result ↔ (self.now ≡ []) }
    {
        self.by_path.is_empty()
    }

    #[tactic(auto, using(crate::proofs::FilesLemmas::lookup_is_bytes_at))]
    pub fn get(&self, path: &RelPath) -> Option<&Bytes>
        ensures { option_copied result ≡ bytes_at path.now self.now }
    {
        self.by_path.get(path)
    }

    /// The paths of the files below a folder, in order.
    pub fn below(&self, alloc: Global, dir: &RelPath) -> Result<Vec<RelPath>, AllocError>
        ensures paths { IfOk result (λ paths. paths.items ≡ paths_below dir.now self.now) }
        ensures in_order { IfOk result (λ paths. ArePathsInOrder paths.items) }
    {
        let mut paths = Vec::new(alloc);
        for (path, _) in &self.by_path {
            if path.is_below(dir) {
                paths.push(path.clone()?)?;
            }
        }
        Ok(paths)
    }

    /// A copy of the files.
    pub fn files(&self, alloc: Global) -> Result<Files, AllocError>
        ensures files { IfOk result (λ files. files ≡ self.now) }
        ensures in_order { IfOk result (λ files. AreInOrder files) }
    {
        let mut files = Vec::new(alloc);
        for (path, bytes) in &self.by_path {
            files.push(File {
                path: path.clone()?,
                bytes: bytes.clone()?,
            })?;
        }
        Ok(Files::from_vec(files))
    }
}

/// Files in order, put one after another where there are none, are those files.
#[tactic(auto, using(crate::proofs::FilesLemmas::put_all_in_order))]
pub fn files_in_order()
    ensures { (files : List File) → AreInOrder files → put_all [] files ≡ files }
{}
