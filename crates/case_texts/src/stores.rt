// Projects in memory, and which of their calls fail.
ghost use Rattle.std.specs.Prelude.{IfOk};
ghost use Rattle.tree_store.specs.Slot.{AllHere};

use crate::fields::{Fault, word};
use crate::names::folder;
use mx_base::{Bytes, FaultPlan};
use std::alloc::Global;
use tree_store::{Contents, MemStore, Store};

/// The numbers that stand with a comma between two.
pub fn calls_of(alloc: Global, calls: &[u8]) -> Result<Vec<u64>, Fault> {
    let mut numbers = Vec::new(alloc);
    if calls.is_empty() {
        return Ok(numbers);
    }
    for number in word(calls)?.split(',') {
        match number.parse::<u64>() {
            Ok(number) => numbers.push(number)?,
            Err(_) => return Err(Fault::Form),
        }
    }
    Ok(numbers)
}

/// Files: for each its path and its bytes.
pub fn contents_of(alloc: Global, files: &[Vec<u8>]) -> Result<Contents, Fault> {
    let mut contents = Contents::new(alloc);
    for two in files.chunks(2) {
        let [path, bytes] = two else {
            return Err(Fault::Form);
        };
        contents.put(
            folder(alloc, path.as_slice())?,
            Bytes::from_slice(alloc, bytes.as_slice())?,
        )?;
    }
    Ok(contents)
}

/// A project of these files, of which these calls of the store, and of each folder, fail.
pub fn store_of(
    alloc: Global,
    calls: &[u8],
    folder_calls: &[u8],
    files: &[Vec<u8>],
) -> Result<MemStore<FaultPlan>, Fault>
    ensures { IfOk result (λ store. AllHere (⟦<MemStore<FaultPlan> as Store>⟧.known store).slot) }
{
    Ok(MemStore::new(
        alloc,
        contents_of(alloc, files)?,
        FaultPlan::new(calls_of(alloc, calls)?),
        FaultPlan::new(Vec::new(alloc)),
        FaultPlan::new(calls_of(alloc, folder_calls)?),
    ))
}
