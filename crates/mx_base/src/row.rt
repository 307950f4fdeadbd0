// Rows of listings.
ghost use Rattle.std.specs.Prelude.{◌≡◌, ◌<◌, ◌^◌};
ghost use Rattle.mx_base.specs.Listing.{IsRow};

use crate::digest::Digest32;
use crate::path::RelPath;

/// What a listing says of a file.
#[derive(Clone, PartialEq, Eq, Drop)]
pub struct FileRow {
    /// Where the file lies.
    pub path: RelPath,
    /// How many bytes it has.
    pub length: u64,
    /// The digest of its bytes.
    pub digest: Digest32,
}

impl FileRow {
    /// The row with these parts, of which each is what its type says. No file has 2^63 bytes.
    pub fn new(path: RelPath, length: u64, digest: Digest32) -> FileRow
        ensures row { result ≡ record { path = path; length = length; digest = digest } }
        ensures sound { length < 2 ^ 63 → IsRow result }
    {
        // These calls tell what holds of a path and of a digest.
        let _ = path.as_str();
        let _ = digest.as_slice();
        FileRow {
            path,
            length,
            digest,
        }
    }
}
