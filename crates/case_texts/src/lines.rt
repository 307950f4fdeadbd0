// Lines of cases.

use crate::fields::{Fault, fields_of};
use std::alloc::{AllocError, Global};

/// A program's kinds of cases.
pub trait Cases {
    /// Adds the answer to a case of this kind about these texts.
    fn answer(
        &self,
        alloc: Global,
        out: &mut String,
        kind: &str,
        texts: &[Vec<u8>],
    ) -> Result<(), Fault>;
}

/// What is printed for a line: the answer to its case, or the line itself where it begins with `#`.
pub fn told<C: Cases>(alloc: Global, cases: &C, line: &str) -> Result<String, AllocError> {
    if line.starts_with('#') {
        return String::from_str(alloc, line);
    }
    let mut out = String::new(alloc);
    match answer(alloc, cases, &mut out, line) {
        Ok(()) => Ok(out),
        Err(Fault::Form) => String::from_str(alloc, "refused"),
        Err(Fault::Memory) => Err(AllocError),
    }
}

fn answer<C: Cases>(alloc: Global, cases: &C, out: &mut String, line: &str) -> Result<(), Fault> {
    let (kind, rest) = line.split_once(' ').ok_or(Fault::Form)?;
    let texts = fields_of(alloc, rest)?;
    cases.answer(alloc, out, kind, texts.as_slice())
}
