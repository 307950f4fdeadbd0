// Why bytes are no package, and where.
ghost use Rattle.std.specs.Prelude.{◌≡◌};

use std::alloc::AllocError;

/// The first fault of a message, and where it is.
#[derive(Clone, Copy, Debug)]
pub struct WireError {
    /// The place of the faulty field's key, in bytes from the beginning of the whole input. Where a field is
    /// missing, the end of its message; a missing reason is told at the end of the release, since all
    /// retirements of a release are one message. 0 where memory ran out.
    pub at: u64,
    /// What is wrong there.
    pub cause: WireCause,
}

/// What is wrong with a message.
#[derive(Clone, Copy, Debug)]
pub enum WireCause {
    /// A field's number is 0 or above 536,870,911, or its wire type is 3, 4, 6 or 7.
    BadKey,
    /// A varint has more than ten bytes, or a value of 2^64 or more.
    BadVarint,
    /// The field runs past the end of its message.
    Truncated,
    /// A known field has another wire type than its own.
    WrongWire(FieldName),
    /// A text isn't UTF-8.
    BadUtf8(FieldName),
    /// A reason is above 4.
    BadEnum,
    /// A required field is absent.
    Missing(FieldName),
    /// There was not enough memory. This says nothing of the bytes.
    OutOfMemory,
}

/// The known fields.
#[derive(Clone, Copy, Debug)]
pub enum FieldName {
    /// Of a package.
    Releases,
    /// Of a package.
    Name,
    /// Of a package and of a dependency.
    Repository,
    /// Of a release.
    Version,
    /// Of a release.
    InnerChecksum,
    /// Of a release.
    Dependencies,
    /// Of a release.
    Retired,
    /// Of a release.
    OuterChecksum,
    /// Of a dependency.
    Package,
    /// Of a dependency.
    Requirement,
    /// Of a dependency.
    Optional,
    /// Of a dependency.
    App,
    /// Of a retirement.
    Reason,
    /// Of a retirement.
    Message,
}

impl WireError {
    /// Memory ran out.
    pub const MEMORY: WireError = WireError {
        at: 0,
        cause: WireCause::OutOfMemory,
    };
}

impl From<AllocError> for WireError {
    ghost use Rattle.hex_messages.specs.declared.error.WireCause.TheVariants.{OutOfMemory};

    ghost from_gives = { λ _ e. e.cause ≡ OutOfMemory };

    fn from(_error: AllocError) -> WireError {
        WireError::MEMORY
    }
}
