//! The program `listing_bench`: the listing of a file of many bytes, or their digest alone, made as often as it is
//! told. It prints the last digest.
//!
//! Its words are `listing` or `sha2`, a number of bytes, and a number of times. Without words it is one listing of
//! 1,000 bytes.
#![tactic(auto)]

ghost use Rattle.mx_base.specs.Listing.{AreApart};

use mx_base::{Bytes, Digest32, File, RelPath, listing_of};
use sha2::{Digest, Sha256};
use std::alloc::{AllocError, Global};
use std::{env, io, str};

fn bytes_of(alloc: Global, count: usize) -> Result<Vec<u8>, AllocError> {
    let mut bytes = Vec::with_capacity(alloc, count)?;
    for place in 0..count {
        bytes.push((place % 251) as u8)?;
    }
    Ok(bytes)
}

// The digest that the listing of one file has for it.
fn listed(alloc: Global, files: &[File]) -> Result<Option<Digest32>, AllocError>
    requires { AreApart files.now }
{
    let listing = listing_of(alloc, files)?;
    Ok(listing.as_slice().first().map(|row| row.digest))
}

fn last_listed(alloc: Global, bytes: Vec<u8>, times: u64) -> Result<Option<Digest32>, AllocError> {
    let files = [File {
        path: RelPath::root(alloc),
        bytes: Bytes::from_vec(bytes),
    }];
    let mut last = None;
    for _time in 0..times {
        last = listed(alloc, &files)?;
    }
    Ok(last)
}

fn last_digested(bytes: &[u8], times: u64) -> Option<Digest32> {
    let mut last = None;
    for _time in 0..times {
        last = Some(Digest32::from_bytes(Sha256::digest(bytes)));
    }
    last
}

// The number that a word says, or this one where it says none.
fn number_of(word: Option<String>, default: u64) -> u64 {
    word.and_then(|word| word.parse().ok()).unwrap_or(default)
}

fn main(rt: HostRuntime) -> io::Result<()> {
    let mut words = env::args(&rt)?.skip(1);
    let alone = words.next().is_some_and(|word| word.as_str() == "sha2");
    let count = number_of(words.next(), 1_000) as usize;
    let times = number_of(words.next(), 1);
    let bytes = bytes_of(rt.alloc(), count)?;
    let digest = if alone {
        last_digested(bytes.as_slice(), times)
    } else {
        last_listed(rt.alloc(), bytes, times)?
    };
    if let Some(digest) = digest {
        println!(rt; "{}", str::from_utf8(&digest.digits()).unwrap_or("no text"))?;
    }
    Ok(())
}
