// Digests of bytes.
ghost use Rattle.std.specs.Prelude.{◌≡◌};
ghost use Rattle.hex.specs.Hex.{encode_lower};
ghost use Rattle.sha2.specs.Sha256.{sha256};
ghost use Rattle.mx_base.specs.Digest.{IsDigest};

use sha2::{Digest, Sha256};
use std::marker::Model;

/// A SHA-256 (FIPS 180-4), which contracts see as the list of its 32 bytes.
#[derive(Clone, Copy, PartialEq, Eq)]
pub struct Digest32([u8; 32]);

impl Model for Digest32 {
    ghost use Rattle.std.specs.Prelude.{List, ℕ};

    ghost Value = { List ℕ };

    ghost view = { λ digest. digest.0 };

    ghost inverse = { λ bytes. record { 0 = bytes } };
}

impl Digest32 {
    /// The SHA-256 of bytes.
    pub fn of(bytes: &[u8]) -> Digest32
        ensures { result ≡ sha256 bytes.now }
    {
        Digest32(Sha256::digest(bytes))
    }

    /// The digest that has these bytes.
    pub fn from_bytes(bytes: [u8; 32]) -> Digest32
        ensures { result ≡ bytes }
    {
        Digest32(bytes)
    }

    /// The bytes of the digest.
    pub fn as_slice(&self) -> &[u8]
        ensures value { result.now ≡ self.now }
        ensures digest { IsDigest self.now }
    {
        let bytes = self.0.as_slice();
        bytes
    }

    /// Its 64 hexadecimal digits, in lower case.
    pub fn digits(&self) -> [u8; 64]
        ensures { result ≡ encode_lower self.now }
    {
        let mut digits = [0; 64];
        let _ = hex::encode_to_slice(self.as_slice(), &mut digits);
        digits
    }
}
