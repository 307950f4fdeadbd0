// Paths below a root.
ghost use Rattle.std.specs.Prelude.{◌≡◌, [], map, nat_eq, IsTrue, IfOk, ◌++◌, string_bytes};
ghost use Rattle.std.specs.List.{slice_split, list_all};
ghost use Rattle.mx_base.specs.Path.{is_slash, is_segment, is_path, segments_of, path_of, child_of, path_from, first_segment, with_slashes};

use crate::utf8::Utf8;
use std::alloc::{AllocError, Global};
use std::marker::Model;

/// A path below a root: segments with a `/` between them, which contracts see as that text.
/// The root has no segment. Paths are ordered as the byte strings of their texts.
#[derive(Clone, PartialEq, Eq, PartialOrd, Ord, Drop)]
pub struct RelPath {
    text: Utf8,
}

impl Model for RelPath {
    ghost use Rattle.std.specs.Prelude.{List, ℕ, IsTrue};
    ghost use Rattle.mx_base.specs.Path.{is_path};

    ghost Value = { List ℕ };

    ghost view = { λ path. path.text };

    ghost invariant = { λ path. IsTrue (is_path path.text) };

    ghost inverse = { λ text. record { text = text } };
}

impl RelPath {
    /// The root itself. It takes no memory.
    pub fn root(alloc: Global) -> RelPath
        ensures { result ≡ [] }
    {
        RelPath {
            text: Utf8::new(String::new(alloc)),
        }
    }

    /// The path with this text. It takes no memory.
    pub fn from_text(text: String) -> RelPath
        requires { IsTrue (is_path (string_bytes text)) }
        ensures { result ≡ string_bytes text }
    {
        RelPath {
            text: Utf8::new(text),
        }
    }

    // The segments with slashes between them.
    #[tactic(auto, using(crate::proofs::PathLemmas::path_of_first))]
    pub(crate) fn of_segments(alloc: Global, segments: &[&str]) -> Result<RelPath, AllocError>
        requires { IsTrue (list_all is_segment (map (λ s. s.now) segments.now)) }
        ensures { IfOk result (λ path. path ≡ path_of (map (λ s. s.now) segments.now)) }
    {
        match segments.split_first() {
            None => Ok(RelPath::root(alloc)),
            Some((first, rest)) => {
                let text = with_rest(alloc, *first, rest)?;
                Ok(RelPath::from_text(text))
            }
        }
    }

    /// The text of the path, which is empty for the root.
    pub fn as_str(&self) -> &str
        ensures value { result.now ≡ self.now }
        ensures path { IsTrue (is_path self.now) }
    {
        self.text.as_str()
    }

    /// The segments, from the root on.
    pub fn segments(&self, alloc: Global) -> Result<Vec<&str>, AllocError>
        ensures segments { IfOk result (λ segments. map (λ s. s.now) segments.items ≡ segments_of self.now) }
        ensures proper { IsTrue (list_all is_segment (segments_of self.now)) }
    {
        let text = self.as_str();
        if text.is_empty() {
            Ok(Vec::new(alloc))
        } else {
            pieces(alloc, text)
        }
    }
}

fn with_rest(alloc: Global, first: &str, rest: &[&str]) -> Result<String, AllocError>
    ensures { IfOk result (λ text. string_bytes text ≡ first.now ++ with_slashes (map (λ s. s.now) rest.now)) }
{
    let mut text = String::from_str(alloc, first)?;
    for segment in rest {
        text.push('/')?;
        text.push_str(*segment)?;
    }
    Ok(text)
}

/// What stands between the slashes of a text.
pub(crate) fn pieces(alloc: Global, text: &str) -> Result<Vec<&str>, AllocError>
    ensures { IfOk result (λ pieces. map (λ s. s.now) pieces.items ≡ slice_split is_slash text.now) }
{
    text.split('/').collect(alloc)
}
