// Cases of listings and marks.

use build_manifest::{Mark, MarkError, read_mark, upgrade, write_mark};
use case_texts::{Fault, contents_of, push_after, refused};
use mx_base::{listing_digest, listing_of, listing_text};
use std::alloc::Global;

/// Files, or an empty text for none: the digest of their listing, and its text.
#[tactic(auto, using(mx_base::proofs::ListingLemmas::apart_from_order))]
pub(crate) fn listing_case(
    alloc: Global,
    out: &mut String,
    texts: &[Vec<u8>],
) -> Result<(), Fault> {
    let files = match texts {
        [none] if none.is_empty() => &[],
        files => files,
    };
    let files = contents_of(alloc, files)?.files(alloc)?;
    let listing = listing_of(alloc, files.as_slice())?;
    let digest = listing_digest(alloc, &listing)?;
    let text = listing_text(alloc, &listing)?;
    push_after(alloc, out, "ok ", digest.as_slice())?;
    push_after(alloc, out, " ", text.as_slice())
}

/// A text: the mark whose text it is, written, and the same mark in the second form.
pub(crate) fn mark_case(alloc: Global, out: &mut String, texts: &[Vec<u8>]) -> Result<(), Fault> {
    let [text] = texts else {
        return Err(Fault::Form);
    };
    match read_mark(alloc, text.as_slice()) {
        Ok(mark) => push_mark(alloc, out, &mark),
        Err(MarkError::Refused { at }) => refused(out, at, "Refused"),
        Err(MarkError::OutOfMemory) => Err(Fault::Memory),
    }
}

fn push_mark(alloc: Global, out: &mut String, mark: &Mark) -> Result<(), Fault> {
    let upgraded = upgrade(alloc, mark)?;
    let text = write_mark(alloc, mark)?;
    let upgraded_text = write_mark(alloc, &upgraded)?;
    push_after(alloc, out, "ok ", text.as_slice())?;
    push_after(alloc, out, " ", upgraded_text.as_slice())
}
