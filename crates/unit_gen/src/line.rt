// What is said of a generated project.
ghost use Rattle.std.specs.Prelude.{◌≡◌, IfOk};
ghost use Rattle.unit_gen.specs.Texts.{gen_line};

use crate::texts::{bytes_of, decimal};
use mx_base::{Bytes, Digest32};
use std::alloc::{AllocError, Global};

/// What is said of a project that was generated and built.
#[derive(Clone, Copy)]
pub struct Told {
    /// How many dependencies it has.
    pub count: u32,
    /// The number that its stream begins at.
    pub start: u32,
    /// How many direct needs its dependencies have.
    pub needs: u64,
    /// How many of them were built.
    pub built: u64,
    /// The listing digest of all output files.
    pub digest: Digest32,
}

/// The line that tells it.
///
/// # Errors
///
/// `AllocError` where there is not enough memory.
pub fn gen_line(alloc: Global, told: &Told) -> Result<Bytes, AllocError>
    ensures { IfOk result (λ line. line ≡ gen_line told.now) }
{
    let count = decimal(alloc, told.count as u64)?;
    let start = decimal(alloc, told.start as u64)?;
    let needs = decimal(alloc, told.needs)?;
    let built = decimal(alloc, told.built)?;
    let text = [
        "gen ",
        count.as_str(),
        " ",
        start.as_str(),
        ": ",
        count.as_str(),
        " dependencies, ",
        needs.as_str(),
        " needs, ",
        built.as_str(),
        " built, tree ",
    ]
    .concat(alloc)?;
    let mut text = bytes_of(text);
    text.extend_from_slice(&told.digest.digits())?;
    text.push(b'\n')?;
    Ok(Bytes::from_vec(text))
}
