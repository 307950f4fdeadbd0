// A folder in memory.
ghost use Rattle.std.specs.Prelude.{None, Some, refl};

use crate::folder::Folder;
use crate::holding::Holding;
use crate::key::BuildKey;
use crate::store::StoreFault;
use mx_base::{AppName, Bytes, Faults, Files, RelPath};
use std::alloc::Global;

/// A build in memory, which a `MemStore` hands out. Its plan says which calls fail; a call that fails changes
/// nothing. It doesn't tell what was written into it on the way.
#[derive(Drop)]
pub struct MemFolder<P> {
    pub(crate) key: BuildKey,
    pub(crate) holding: Holding,
    pub(crate) plan: P,
}

impl<P: Faults> Folder for MemFolder<P> {
    ghost known = { λ folder. record {
      key = folder.key;
      held = Some folder.holding;
      moments = None;
      faults = P.count folder.plan;
    } };

    ghost tells = { Unit {0} };

    ghost told = { λ _ _. refl };

    fn env(&self) -> &AppName {
        &self.key.env
    }

    fn app(&self) -> &AppName {
        &self.key.app
    }

    fn unmark(&mut self, _alloc: Global) -> Result<(), StoreFault> {
        if self.plan.fails() {
            return Err(StoreFault::Failed);
        }
        self.holding.mark = None;
        Ok(())
    }

    fn clear(&mut self, _alloc: Global) -> Result<(), StoreFault> {
        if self.plan.fails() {
            return Err(StoreFault::Failed);
        }
        self.holding.files.clear();
        Ok(())
    }

    fn put(&mut self, alloc: Global, path: &RelPath, bytes: &[u8]) -> Result<(), StoreFault> {
        if self.plan.fails() {
            return Err(StoreFault::Failed);
        }
        let path = path.clone()?;
        let bytes = Bytes::from_slice(alloc, bytes)?;
        self.holding.files.put(path, bytes)?;
        Ok(())
    }

    fn files(&mut self, alloc: Global) -> Result<Files, StoreFault> {
        if self.plan.fails() {
            return Err(StoreFault::Failed);
        }
        Ok(self.holding.files.files(alloc)?)
    }

    fn mark(&mut self, alloc: Global, bytes: &[u8]) -> Result<(), StoreFault> {
        if self.plan.fails() {
            return Err(StoreFault::Failed);
        }
        self.holding.mark = Some(Bytes::from_slice(alloc, bytes)?);
        Ok(())
    }

    fn read_mark(&mut self, _alloc: Global) -> Result<Option<Bytes>, StoreFault> {
        if self.plan.fails() {
            return Err(StoreFault::Failed);
        }
        match &self.holding.mark {
            Some(bytes) => Ok(Some(bytes.clone()?)),
            None => Ok(None),
        }
    }
}
