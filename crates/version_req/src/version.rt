// Texts that are versions.
ghost use Rattle.std.specs.Prelude.{◌≡◌, IfOk};
ghost use Rattle.version_req.specs.Version.{if_version, is_version};

use mx_base::Text;
use semver::{Error, Version};
use std::alloc::{AllocError, Global};
use std::str;

/// The text, where it is a version of Semantic Versioning 2.0.0.
pub fn version_in(alloc: Global, text: &[u8]) -> Result<Option<Text>, AllocError>
    ensures { IfOk result (λ found. found ≡ if_version text.now) }
{
    if is_version(alloc, text)? {
        Ok(Some(Text::from_slice(alloc, text)?))
    } else {
        Ok(None)
    }
}

#[tactic(auto, using(crate::proofs::VersionLemmas::text_is_utf8, crate::proofs::VersionLemmas::no_text))]
fn is_version(alloc: Global, text: &[u8]) -> Result<bool, AllocError>
    ensures { IfOk result (λ is. is ≡ is_version text.now) }
{
    let Ok(text) = str::from_utf8(text) else {
        return Ok(false);
    };
    match Version::parse(alloc, text) {
        Ok(_) => Ok(true),
        Err(error) => {
            if error == Error::from(AllocError) {
                Err(AllocError)
            } else {
                Ok(false)
            }
        }
    }
}
