// Why nothing is picked.
use mx_base::AppName;
use std::alloc::{AllocError, AllocFailed};

/// Why nothing is picked.
#[derive(Drop)]
pub enum PickError {
    /// No pick is valid. The package is that of the first dead end: it is needed, and each of its candidates breaks
    /// a requirement.
    NoPick { package: AppName },
    /// More nodes of the tree than are tried come before the preferred pick, or before the end of the tree.
    TooManyNodes,
    /// There was not enough memory. This says nothing of the registry.
    OutOfMemory,
}

impl From<AllocError> for PickError {
    ghost use Rattle.std.specs.Prelude.{◌≡◌};
    ghost use Rattle.hex_pick.specs.declared.error.PickError.TheVariants.{OutOfMemory};

    ghost from_gives = { λ _ e. e ≡ OutOfMemory };

    fn from(_: AllocError) -> PickError {
        PickError::OutOfMemory
    }
}

impl<T: Drop> From<AllocFailed<T>> for PickError {
    ghost use Rattle.std.specs.Prelude.{◌≡◌};
    ghost use Rattle.hex_pick.specs.declared.error.PickError.TheVariants.{OutOfMemory};

    ghost from_gives = { λ _ e. e ≡ OutOfMemory };

    fn from(_: AllocFailed<T>) -> PickError {
        PickError::OutOfMemory
    }
}
