// The names of applications.
ghost use Rattle.std.specs.Prelude.{◌≡◌, ◌<◌, ◌≤◌, ◌↔◌, ℕ, [], length, slice_index, IsTrue, IsFalse, IfOk, IsErrOf, IfSome, IfNone, MatchResult, string_bytes};
ghost use Rattle.std.specs.Hash as fed;
ghost use Rattle.std.specs.Cmp.Rules.{hashing};
ghost use Rattle.std.proofs.Common.{rules};
ghost use Rattle.mx_base.specs.NameFaults.{is_memory};
ghost use Rattle.mx_base.specs.AppName.{IsAppName, IsFirstBadByte, fits_at, is_app_name};

use crate::list_of::ListOf;
use crate::utf8::Utf8;
use std::alloc::{AllocError, Global};
use std::hash::{Hash, Hasher};
use std::marker::Model;
use std::str;
use thiserror::Error;

const MAX_NAME_LEN: usize = 255;

/// Names of apps or of environments, in their order.
pub type Names = ListOf<AppName>;

/// The name of an application: `[A-Za-z_][A-Za-z0-9_]*`, of at most 255 bytes. Names are ordered by their bytes.
#[derive(Clone, PartialEq, Eq, PartialOrd, Ord, Drop)]
pub struct AppName {
    text: Utf8,
}

impl Model for AppName {
    ghost use Rattle.std.specs.Prelude.{List, ℕ};

    ghost Value = { List ℕ };

    ghost use Rattle.mx_base.specs.AppName.{IsAppName};

    ghost view = { λ name. name.text };

    ghost invariant = { λ name. IsAppName name.text };

    ghost inverse = { λ text. record { text = text } };
}

/// Why a text is no name, the first that holds in this order.
#[derive(Clone, Copy, Debug, PartialEq, Eq, Error)]
pub enum NameError {
    /// The text is empty.
    #[error("the name is empty")]
    Empty,
    /// The text has more than 255 bytes.
    #[error("the name has more than 255 bytes")]
    TooLong,
    /// The first byte that may not stand at its place, counted from 0.
    #[error("no name has the byte at {at}")]
    BadByte { at: u64 },
    /// There was not enough memory. This says nothing of the text.
    #[error("out of memory")]
    OutOfMemory,
}

impl From<AllocError> for NameError {
    ghost use Rattle.std.specs.Prelude.{◌≡◌};
    ghost use Rattle.mx_base.specs.declared.name.NameError.TheVariants.{OutOfMemory};

    ghost from_gives = { λ _ e. e ≡ OutOfMemory };

    fn from(_: AllocError) -> NameError {
        NameError::OutOfMemory
    }
}

impl Hash for AppName {
    ghost hash_input = { fed.str };

    ghost respects_eq = { Prim.search (hashing, rules) };

    fn hash<H: Hasher>(&self, state: &mut H) {
        self.as_str().hash(state);
    }
}

impl AppName {
    /// The name that the text spells.
    ///
    /// # Errors
    ///
    /// `Empty`, `TooLong` and `BadByte` come in this order, each exactly where it holds; `OutOfMemory` only where none does.
    #[tactic(auto, using(crate::proofs::NameLemmas::is_name_of_fits, crate::proofs::NameLemmas::no_name_too_long, crate::proofs::NameLemmas::no_name_with))]
    pub fn of(alloc: Global, text: &[u8]) -> Result<AppName, NameError>
        ensures ok { IfOk result (λ name. name ≡ text.now) }
        ensures empty { IsErrOf result NameError.Empty ↔ (text.now ≡ []) }
        ensures too_long { IsErrOf result NameError.TooLong ↔ (255 < length text.now) }
        ensures exact { MatchResult result (λ _. IsTrue (is_app_name text.now)) (λ e. IsFalse (is_memory e) → IsFalse (is_app_name text.now)) }
        ensures bad_byte { (at : ℕ) → IsErrOf result (NameError.BadByte at) ↔ ((length text.now ≤ 255) × IsFirstBadByte text.now at) }
    {
        if text.is_empty() {
            return Err(NameError::Empty);
        }
        if text.len() > MAX_NAME_LEN {
            return Err(NameError::TooLong);
        }
        if let Some(at) = first_bad_byte(text) {
            return Err(NameError::BadByte { at: at as u64 });
        }
        Ok(AppName {
            text: Utf8::new(spelled(alloc, text)?),
        })
    }

    /// The text of the name, which is ASCII.
    pub fn as_str(&self) -> &str
        ensures value { result.now ≡ self.now }
        ensures name { IsAppName self.now }
    {
        self.text.as_str()
    }
}

#[tactic(auto, using(crate::proofs::NameLemmas::name_is_utf8))]
fn spelled(alloc: Global, text: &[u8]) -> Result<String, AllocError>
    requires { (k : ℕ) → k < length text.now → IsTrue (fits_at k (slice_index text.now k)) }
    ensures { IfOk result (λ string. string_bytes string ≡ text.now) }
{
    match str::from_utf8(text) {
        Ok(name) => String::from_str(alloc, name),
        Err(_) => unreachable!(),
    }
}

// The first byte that no name has at its place.
fn first_bad_byte(text: &[u8]) -> Option<usize>
    ensures found { IfSome result (IsFirstBadByte text.now) }
    ensures none { IfNone result ((k : ℕ) → k < length text.now → IsTrue (fits_at k (slice_index text.now k))) }
{
    for (at, byte) in text.iter().enumerate() {
        if !may_stand(at, *byte) {
            return Some(at);
        }
    }
    None
}

fn may_stand(at: usize, byte: u8) -> bool
    ensures { result ≡ fits_at at byte }
{
    byte == b'_'
        || (b'a' <= byte && byte <= b'z')
        || (b'A' <= byte && byte <= b'Z')
        || (at > 0 && b'0' <= byte && byte <= b'9')
}
