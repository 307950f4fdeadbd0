// The text of a listing, and its digest.
ghost use Rattle.std.specs.Prelude.{◌≡◌, ◌++◌, IfOk, OnOk};
ghost use Rattle.mx_base.specs.Listing.{listing_digest, listing_text, row_text};

use crate::bytes::Bytes;
use crate::digest::Digest32;
use crate::listing::Listing;
use crate::row::FileRow;
use sha2::{Digest, Sha256};
use std::alloc::{AllocError, Global};

/// The text of a listing: for each row the digest in 64 lower-case hexadecimal digits, a space, the length in
/// decimal, a space, the path and a newline.
pub fn listing_text(alloc: Global, listing: &Listing) -> Result<Bytes, AllocError>
    ensures { IfOk result (λ text. text ≡ listing_text listing.now) }
{
    let mut text = Vec::new(alloc);
    for row in listing.as_slice() {
        push_row(alloc, &mut text, row)?;
    }
    Ok(Bytes::from_vec(text))
}

/// The SHA-256 of the text of a listing, of which no more than one row is made at a time.
pub fn listing_digest(alloc: Global, listing: &Listing) -> Result<Digest32, AllocError>
    ensures { IfOk result (λ digest. digest ≡ listing_digest listing.now) }
{
    let mut hasher = Sha256::new();
    let mut text = Vec::new(alloc);
    for row in listing.as_slice() {
        text.clear();
        push_row(alloc, &mut text, row)?;
        hasher.update(text.as_slice());
    }
    Ok(Digest32::from_bytes(hasher.finalize()))
}

fn push_row(alloc: Global, text: &mut Vec<u8>, row: &FileRow) -> Result<(), AllocError>
    ensures { OnOk result (text.new.items ≡ text.old.items ++ row_text row.now) }
{
    text.extend_from_slice(&row.digest.digits())?;
    text.push(b' ')?;
    text.extend_from_slice(row.length.to_string(alloc)?.as_bytes())?;
    text.push(b' ')?;
    text.extend_from_slice(row.path.as_str().as_bytes())?;
    text.push(b'\n')?;
    Ok(())
}
