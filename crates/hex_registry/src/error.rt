// Why a registry isn't loaded.
ghost use Rattle.std.specs.Prelude.{◌≡◌};
ghost use Rattle.hex_registry.specs.Refusals.{wire_refused};

use hex_messages::{WireCause, WireError};
use mx_base::{AppName, Text};
use std::alloc::{AllocError, AllocFailed};
use tree_store::StoreFault;

/// Why a registry isn't loaded, at the first place met.
#[derive(Drop)]
pub enum RegistryError {
    /// The store failed, and counted it.
    Read,
    /// The file of the package is no message of one.
    Wire { package: AppName, fault: WireError },
    /// A wanted package has no file.
    NoPackage(AppName),
    /// The message is of another package than was asked for.
    NameDiffers { asked: AppName, found: Text },
    /// A release's version is none by SemVer. It is the first such release.
    BadVersion { package: AppName, version: Text },
    /// There was not enough memory. This says nothing of the files.
    OutOfMemory,
}

impl From<AllocError> for RegistryError {
    ghost use Rattle.std.specs.Prelude.{◌≡◌};
    ghost use Rattle.hex_registry.specs.declared.error.RegistryError.TheVariants.{OutOfMemory};

    ghost from_gives = { λ _ e. e ≡ OutOfMemory };

    fn from(_: AllocError) -> RegistryError {
        RegistryError::OutOfMemory
    }
}

impl<T: Drop> From<AllocFailed<T>> for RegistryError {
    ghost use Rattle.std.specs.Prelude.{◌≡◌};
    ghost use Rattle.hex_registry.specs.declared.error.RegistryError.TheVariants.{OutOfMemory};

    ghost from_gives = { λ _ e. e ≡ OutOfMemory };

    fn from(_: AllocFailed<T>) -> RegistryError {
        RegistryError::OutOfMemory
    }
}

impl From<StoreFault> for RegistryError {
    ghost use Rattle.std.specs.Prelude.{◌≡◌};
    ghost use Rattle.hex_registry.specs.Refusals.{store_refused};

    ghost from_gives = { λ fault e. e ≡ store_refused fault };

    fn from(fault: StoreFault) -> RegistryError {
        match fault {
            StoreFault::Failed => RegistryError::Read,
            StoreFault::OutOfMemory => RegistryError::OutOfMemory,
        }
    }
}

/// What the fault of a package's message becomes.
pub(crate) fn wire_refused(name: AppName, fault: WireError) -> RegistryError
    ensures { result ≡ wire_refused name fault }
{
    match fault.cause {
        WireCause::OutOfMemory => RegistryError::OutOfMemory,
        _ => RegistryError::Wire {
            package: name,
            fault,
        },
    }
}
