// Folders, by what they hold.
ghost use Rattle.std.specs.Prelude.{◌≡◌, IfOk, IfSome, IsSome};
ghost use Rattle.mx_base.specs.Blame.{fails};
ghost use Rattle.tree_store.specs.Blame.{blame_of};
ghost use Rattle.tree_store.specs.FolderKnown.{FolderKnown, IsUnmarked, Looks, Writes};
ghost use Rattle.tree_store.specs.Moment.Write.{Clear, Mark, Put, Unmark};

use crate::store::StoreFault;
use mx_base::{AppName, Bytes, Files, RelPath};
use std::alloc::Global;

/// A build whose folder was handed out: its files, and a mark or none. A mark says what the files were made
/// from, so files change only where no mark stands.
///
/// After an error each call that writes may have stopped anywhere on its way, and so may a program that ends in
/// the middle of it: `unmark` leaves the mark or none, `clear` any of the files, each whole, `put` and `mark` what
/// was there, nothing, or a prefix of the new bytes.
pub trait Folder {
    /// The build that it is of, what it holds and what was written into it, where it tells that, and how often
    /// it failed. The count never falls.
    ghost known: { Self → FolderKnown };

    /// Whether all folders of the type tell what they hold.
    ghost tells: { Type 0 };

    /// The environment that it was asked for. It takes no memory.
    fn env(&self) -> &AppName
        ensures { result.now ≡ (known self.now).key.env };

    /// The app that it was asked for. It takes no memory.
    fn app(&self) -> &AppName
        ensures { result.now ≡ (known self.now).key.app };

    /// Takes its mark away. Where no mark stands that is no fault.
    fn unmark(&mut self, alloc: Global) -> Result<(), StoreFault>
        ensures { Writes Unmark (known self.old) (known self.new) result };

    /// Removes all files.
    fn clear(&mut self, alloc: Global) -> Result<(), StoreFault>
        requires { IsUnmarked (known self.old) }
        ensures { Writes Clear (known self.old) (known self.new) result };

    /// Writes a file, in place of one of its path.
    fn put(&mut self, alloc: Global, path: &RelPath, bytes: &[u8]) -> Result<(), StoreFault>
        requires { IsUnmarked (known self.old) }
        ensures { Writes (Put (record { path = path.now; bytes = bytes.now })) (known self.old)
            (known self.new) result };

    /// Reads all files, in the order of their paths.
    fn files(&mut self, alloc: Global) -> Result<Files, StoreFault>
        ensures files { IfOk result (λ files. IfSome (known self.old).held
            (λ held. files ≡ held.files)) }
        ensures looks { Looks (known self.old) (known self.new) (fails blame_of result) };

    /// Writes its mark, in place of one that stands.
    fn mark(&mut self, alloc: Global, bytes: &[u8]) -> Result<(), StoreFault>
        ensures { Writes (Mark bytes.now) (known self.old) (known self.new) result };

    /// Reads the bytes of its mark, and none where no mark stands.
    fn read_mark(&mut self, alloc: Global) -> Result<Option<Bytes>, StoreFault>
        ensures mark { IfOk result (λ mark. IfSome (known self.old).held
            (λ held. mark ≡ held.mark)) }
        ensures looks { Looks (known self.old) (known self.new) (fails blame_of result) };

    ghost told: { tells → (folder : Self) → IsSome (known folder).held };
}
