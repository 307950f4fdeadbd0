// Paths below a folder.
ghost use Rattle.std.specs.Prelude.{◌≡◌, ◌≤◌, drop, length, option_map, string_bytes, IsTrue, IfOk, IfSome};
ghost use Rattle.std.specs.Str.{IsCharBoundary};
ghost use Rattle.mx_base.specs.Path.{is_path, is_segment, child_of, path_from, is_below, first_segment};

use crate::path::RelPath;
use std::alloc::{AllocError, Global};

impl RelPath {
    /// The path of a name in this folder.
    #[tactic(auto, using(crate::proofs::FolderLemmas::child_is_path))]
    pub fn child(&self, alloc: Global, name: &str) -> Result<RelPath, AllocError>
        requires { IsTrue (is_segment name.now) }
        ensures { IfOk result (λ path. path ≡ child_of self.now name.now) }
    {
        let text = child_text(alloc, self.as_str(), name)?;
        Ok(RelPath::from_text(text))
    }

    /// This path as it is seen from a folder, and none where it isn't below the folder.
    #[tactic(auto, using(crate::proofs::FolderLemmas::path_from_is_path))]
    pub fn from_folder(
        &self,
        alloc: Global,
        folder: &RelPath,
    ) -> Result<Option<RelPath>, AllocError>
        ensures { IfOk result (λ rest. rest ≡ path_from folder.now self.now) }
    {
        let path = self.as_str();
        match start_below(path, folder.as_str()) {
            Some(start) => {
                let text = String::from_str(alloc, &path[start..])?;
                Ok(Some(RelPath::from_text(text)))
            }
            None => Ok(None),
        }
    }

    /// Whether the path lies in this folder, at any depth; the folder itself does not.
    pub fn is_below(&self, folder: &RelPath) -> bool
        ensures { result ≡ is_below folder.now self.now }
    {
        start_below(self.as_str(), folder.as_str()).is_some()
    }
}

fn child_text(alloc: Global, folder: &str, name: &str) -> Result<String, AllocError>
    ensures { IfOk result (λ text. string_bytes text ≡ child_of folder.now name.now) }
{
    let mut text = String::from_str(alloc, folder)?;
    if !folder.is_empty() {
        text.push('/')?;
    }
    text.push_str(name)?;
    Ok(text)
}

// Where the path from the folder begins.
#[tactic(auto, using(crate::proofs::FolderLemmas::starts_at_character, crate::proofs::FolderLemmas::follows_slash))]
fn start_below(path: &str, folder: &str) -> Option<usize>
    ensures rest { option_map (λ start. drop start path.now) result ≡ path_from folder.now path.now }
    ensures boundary { IfSome result (IsCharBoundary path.now) }
{
    if folder.is_empty() {
        return Some(0);
    }
    let bytes = path.as_bytes();
    for (place, byte) in folder.as_bytes().iter().enumerate() {
        if bytes.get(place) != Some(byte) {
            return None;
        }
    }
    let end = folder.len();
    if end < bytes.len() && bytes[end] == b'/' {
        Some(end + 1)
    } else {
        None
    }
}
