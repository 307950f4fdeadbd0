// What a compiler's text says of each source.
ghost use Rattle.std.specs.Prelude.{◌≡◌, IfOk, map};
ghost use Rattle.std.specs.List.{All};
ghost use Rattle.sha2.specs.Sha256.{sha256};
ghost use Rattle.mx_base.specs.Digest.{IsDigest};
ghost use Rattle.build_manifest.specs.Diagnostics.{diagnostics_of, lines_of, text_about};

use crate::mark::Digests;
use mx_base::{Digest32, FileRow, RelPath};
use sha2::{Digest, Sha256};
use std::alloc::{AllocError, Global};

/// For each source the digest of the lines of a text that are about it.
pub(crate) fn diagnostics_of(
    alloc: Global,
    sources: &[FileRow],
    text: &[u8],
) -> Result<Digests, AllocError>
    ensures are { IfOk result (λ digests. digests ≡ diagnostics_of sources.now text.now) }
    ensures each { IfOk result (All IsDigest) }
{
    let lines = lines_of(alloc, text)?;
    let mut digests = Digests::new(alloc);
    for source in sources {
        digests.push(digest_about(alloc, &source.path, lines.as_slice())?)?;
    }
    Ok(digests)
}

// The lines of a text, each with its newline, which the last may lack.
fn lines_of<'a>(alloc: Global, text: &'a [u8]) -> Result<Vec<&'a [u8]>, AllocError>
    ensures { IfOk result (λ lines. map (λ line. line.now) lines.items ≡ lines_of text.now) }
{
    let mut lines = Vec::new(alloc);
    let mut start = 0;
    for at in 0..text.len() {
        if text[at] == b'\n' {
            lines.push(&text[start..at + 1])?;
            start = at + 1;
        }
    }
    if start < text.len() {
        lines.push(&text[start..])?;
    }
    Ok(lines)
}

// The digest of the lines that begin with a path and a colon.
fn digest_about(alloc: Global, path: &RelPath, lines: &[&[u8]]) -> Result<Digest32, AllocError>
    ensures is { IfOk result (λ digest. digest
        ≡ sha256 (text_about path.now (map (λ line. line.now) lines.now))) }
    ensures sound { IfOk result IsDigest }
{
    let mut head = Vec::from_slice(alloc, path.as_str().as_bytes())?;
    head.push(b':')?;
    let mut hasher = Sha256::new();
    for line in lines {
        if line.starts_with(head.as_slice()) {
            hasher.update(*line);
        }
    }
    let digest = Digest32::from_bytes(hasher.finalize());
    // This call tells what holds of a digest.
    let _ = digest.as_slice();
    Ok(digest)
}
