// Names of apps, at the front of a text.
ghost use Rattle.std.specs.Prelude.{◌≡◌, ◌<◌, ◌++◌, ◌∷◌, [], length, IfOk, IsTrue};
ghost use Rattle.mx_base.specs.AppName.{IsAppName, fits_at};
ghost use Rattle.build_manifest.specs.Names.{IsLongestFront};

use mx_base::{AppName, NameError};
use std::alloc::{AllocError, Global};

/// The most bytes that a name has.
pub(crate) const MAX_NAME_LEN: usize = 255;

/// Whether a name may have this byte at this place.
pub(crate) fn may_stand(at: usize, byte: u8) -> bool
    ensures { result ≡ fits_at at byte }
{
    byte == b'_'
        || (b'a' <= byte && byte <= b'z')
        || (b'A' <= byte && byte <= b'Z')
        || (at > 0 && b'0' <= byte && byte <= b'9')
}

/// The longest front of the text that a name may begin with.
pub(crate) fn name_front(text: &[u8]) -> &[u8]
    ensures { IsLongestFront text.now result.now }
{
    'bytes: for i in 0..text.len() {
        if i == MAX_NAME_LEN || !may_stand(i, text[i]) {
            return &text[..i];
        }
    }
    text
}

/// The name that a text is.
pub(crate) fn name_of(alloc: Global, text: &[u8]) -> Result<AppName, AllocError>
    requires { IsAppName text.now }
    ensures { IfOk result (λ name. name ≡ text.now) }
{
    match AppName::of(alloc, text) {
        Ok(name) => Ok(name),
        Err(NameError::OutOfMemory) => Err(AllocError),
        Err(NameError::Empty) => unreachable!(),
        Err(NameError::TooLong) => unreachable!(),
        Err(NameError::BadByte { .. }) => unreachable!(),
    }
}

/// The name with one byte more.
pub(crate) fn longer(alloc: Global, name: &AppName, byte: u8) -> Result<AppName, AllocError>
    requires short { length name.now < 255 }
    requires byte { IsTrue (fits_at (length name.now) byte) }
    ensures { IfOk result (λ more. more ≡ name.now ++ byte ∷ []) }
{
    let mut text = Vec::from_slice(alloc, name.as_str().as_bytes())?;
    text.push(byte)?;
    name_of(alloc, &text)
}
