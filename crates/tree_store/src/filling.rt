// Files that are put one after another.
ghost use Rattle.std.specs.Prelude.{◌≡◌, None, OnOk, option_map};
ghost use Rattle.mx_base.specs.Blame.{fails};
ghost use Rattle.mx_base.specs.Causes.{Counted};
ghost use Rattle.tree_store.specs.Blame.{blame_of};
ghost use Rattle.tree_store.specs.FolderKnown.{IsUnmarked, StopsIn};
ghost use Rattle.tree_store.specs.Holding.{with_all};

use crate::folder::Folder;
use crate::store::StoreFault;
use mx_base::File;
use std::alloc::Global;

/// Writes files into a folder that has no mark, one after another. After an error the first of them are
/// written, and of the next one perhaps a part.
pub fn put_files<F: Folder>(alloc: Global, files: &[File], folder: &mut F) -> Result<(), StoreFault>
    requires { IsUnmarked (F.known folder.old) }
    ensures held { OnOk result ((F.known folder.new).held
        ≡ option_map (with_all files.now) (F.known folder.old).held) }
    ensures unmarked { StopsIn (λ image. image.mark ≡ None) (F.known folder.old)
        (F.known folder.new) }
    ensures cause { Counted (F.known folder.old).faults (F.known folder.new).faults
        (fails blame_of result) }
{
    for file in files {
        folder.put(alloc, &file.path, file.bytes.as_slice())?;
    }
    Ok(())
}
