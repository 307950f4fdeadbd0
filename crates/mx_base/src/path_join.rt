// Joining a text to a path.
ghost use Rattle.std.specs.Prelude.{◌≡◌, ◌≤◌, ◌∷◌, [], List, ℕ, length, map, position, Ok, Err, Some, None, OnOk, IfOk, IfErr, IsErrOf, IsTrue, IsFalse, true, false};
ghost use Rattle.std.specs.List.{slice_split, list_all, list_any};
ghost use Rattle.std.specs.Str.Lossy.{utf8_valid_len};
ghost use Rattle.mx_base.specs.Blame.{Answers};
ghost use Rattle.mx_base.specs.Blame.Blame.{Input};
ghost use Rattle.mx_base.specs.Path.{is_slash, is_refused, is_segment, segments_of, path_of};
ghost use Rattle.mx_base.specs.Join.{LeadsAboveRoot, blame_of, first_refused, step, walk, joined};

use crate::path::{RelPath, pieces};
use std::alloc::{AllocError, AllocFailed, Global};
use std::str;
use thiserror::Error;

/// Why a text names no path, the first that holds in this order.
#[derive(Clone, Copy, Debug, PartialEq, Eq, Error)]
pub enum PathError {
    /// The first byte, counted from 0, that is a control or a backslash or isn't UTF-8.
    #[error("no path has the byte at {at}")]
    BadByte { at: u64 },
    /// The text begins with a slash, or has a `..` with nothing to remove.
    #[error("the path goes above the root")]
    AboveRoot,
    /// No segment is left.
    #[error("the path is empty")]
    Empty,
    /// There was not enough memory. This says nothing of the text.
    #[error("out of memory")]
    OutOfMemory,
}

impl From<AllocError> for PathError {
    ghost use Rattle.std.specs.Prelude.{◌≡◌};
    ghost use Rattle.mx_base.specs.declared.path_join.PathError.TheVariants.{OutOfMemory};

    ghost from_gives = { λ _ e. e ≡ OutOfMemory };

    fn from(_: AllocError) -> PathError {
        PathError::OutOfMemory
    }
}

impl<T: Drop> From<AllocFailed<T>> for PathError {
    ghost use Rattle.std.specs.Prelude.{◌≡◌};
    ghost use Rattle.mx_base.specs.declared.path_join.PathError.TheVariants.{OutOfMemory};

    ghost from_gives = { λ _ e. e ≡ OutOfMemory };

    fn from(_: AllocFailed<T>) -> PathError {
        PathError::OutOfMemory
    }
}

impl RelPath {
    /// The path that a text names from a base: the text is cut at `/`, empty segments and `.` are
    /// dropped, and `..` removes the last segment.
    ///
    /// # Errors
    ///
    /// `BadByte` and a slash at the beginning are told whatever memory there is. Else `AboveRoot` comes at the first
    /// `..` with nothing to remove, and `Empty` where no segment is left.
    pub fn join(alloc: Global, base: &RelPath, text: &[u8]) -> Result<RelPath, PathError>
        ensures answer { Answers blame_of result (λ answer. joined base.now text.now ≡ answer) }
        ensures bad_byte { (at : ℕ) → first_refused text.now ≡ Some at → IsErrOf result (PathError.BadByte at) }
        ensures leading { LeadsAboveRoot text.now → IsErrOf result PathError.AboveRoot }
    {
        let text = match accepted(text) {
            Ok(text) => text,
            Err(at) => return Err(PathError::BadByte { at: at as u64 }),
        };
        if let [b'/', ..] = text.as_bytes() {
            return Err(PathError::AboveRoot);
        }
        let segments = walked(alloc, base, text)?;
        if segments.is_empty() {
            return Err(PathError::Empty);
        }
        Ok(RelPath::of_segments(alloc, &segments)?)
    }
}

// The text, or the first byte that no path has.
#[tactic(auto, using(crate::proofs::PathLemmas::first_refused_of_utf8, crate::proofs::PathLemmas::none_refused))]
fn accepted(text: &[u8]) -> Result<&str, usize>
    ensures ok { IfOk result (λ s. (s.now ≡ text.now) × (first_refused text.now ≡ None)) }
    ensures clean { OnOk result (list_any is_refused text.now ≡ false) }
    ensures err { IfErr result (λ at. (first_refused text.now ≡ Some at) × (at ≤ length text.now)) }
{
    match str::from_utf8(text) {
        Ok(valid) => match refused_byte(text) {
            Some(at) => Err(at),
            None => Ok(valid),
        },
        Err(e) => {
            let end = e.valid_up_to();
            match refused_byte(&text[..end]) {
                Some(at) => Err(at),
                None => Err(end),
            }
        }
    }
}

fn refused_byte(text: &[u8]) -> Option<usize>
    ensures { result ≡ position is_refused text.now }
{
    text.iter()
        .position(|byte| *byte < 32 || *byte == 127 || *byte == b'\\')
}

#[tactic(auto, using(crate::proofs::PathLemmas::walked_segments))]
fn walked<'a>(alloc: Global, base: &'a RelPath, text: &'a str) -> Result<Vec<&'a str>, PathError>
    requires { list_any is_refused text.now ≡ false }
    ensures segments { IfOk result (λ segments. list_all is_segment (map (λ s. s.now) segments.items) ≡ true) }
    ensures ok { IfOk result (λ segments. walk (segments_of base.now) (slice_split is_slash text.now) ≡ Ok (map (λ s. s.now) segments.items)) }
    ensures err { IfErr result (λ e. blame_of e ≡ Input → walk (segments_of base.now) (slice_split is_slash text.now) ≡ Err e) }
{
    let mut segments = base.segments(alloc)?;
    let pieces = pieces(alloc, text)?;
    for piece in &pieces {
        take_step(&mut segments, *piece)?;
    }
    Ok(segments)
}

// What a piece between slashes does.
fn take_step<'a>(segments: &mut Vec<&'a str>, piece: &'a str) -> Result<(), PathError>
    ensures ok { OnOk result (step (map (λ s. s.now) segments.old.items) piece.now ≡ Ok (map (λ s. s.now) segments.new.items)) }
    ensures err { IfErr result (λ e. blame_of e ≡ Input → step (map (λ s. s.now) segments.old.items) piece.now ≡ Err e) }
{
    if piece.is_empty() || piece == "." {
        return Ok(());
    }
    if piece == ".." {
        return match segments.pop() {
            Some(_) => Ok(()),
            None => Err(PathError::AboveRoot),
        };
    }
    segments.push(piece)?;
    Ok(())
}
