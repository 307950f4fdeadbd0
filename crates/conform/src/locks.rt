// Cases of locks.

use case_texts::{Fault, push_after, refused_term};
use mix_lock::{Lock, LockError, read_lock, write_lock};
use std::alloc::Global;

/// A text: what its lock is written as.
pub(crate) fn lock_case(alloc: Global, out: &mut String, texts: &[Vec<u8>]) -> Result<(), Fault> {
    let [text] = texts else {
        return Err(Fault::Form);
    };
    match read_lock(alloc, text.as_slice()) {
        Ok(lock) => push_written(alloc, out, &lock),
        Err(error) => refused_lock(alloc, out, &error),
    }
}

fn push_written(alloc: Global, out: &mut String, lock: &Lock) -> Result<(), Fault> {
    let written = write_lock(alloc, lock)?;
    push_after(alloc, out, "ok ", written.as_slice())
}

fn refused_lock(alloc: Global, out: &mut String, error: &LockError) -> Result<(), Fault> {
    match error {
        LockError::Term(error) => refused_term(out, *error),
        LockError::Shape(name) => push_after(alloc, out, "refused - Shape ", name.as_slice()),
        LockError::OutOfMemory => Err(Fault::Memory),
    }
}
