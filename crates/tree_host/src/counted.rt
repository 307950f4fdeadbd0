// What the system answered, and how often it failed.
ghost use Rattle.std.specs.Prelude.{◌≡◌, ◌↔◌, Ok, IfOk, IfErr, IsErrOf, IsOk};
ghost use Rattle.std.specs.IoError.{error_kind};
ghost use Rattle.mx_base.specs.Blame.{fails};
ghost use Rattle.mx_base.specs.Causes.{Counted};
ghost use Rattle.tree_store.specs.Blame.{blame_of};

use mx_base::Count;
use std::io;
use std::io::ErrorKind;
use tree_store::StoreFault;

/// Hands on what the system answered, and counts a failure. Want of memory is no failure of the system, also where
/// the system itself says so, and isn't counted.
pub(crate) fn counted<T>(faults: &mut Count, answer: io::Result<T>) -> Result<T, StoreFault>
    ensures ok { IfOk result (λ value. answer ≡ Ok value) }
    ensures same { IsOk result ↔ IsOk answer }
    ensures memory { IfErr answer (λ e. IsErrOf result StoreFault.OutOfMemory ↔ (error_kind e ≡ ErrorKind.OutOfMemory)) }
    ensures cause { Counted faults.old faults.new (fails blame_of result) }
{
    match answer {
        Ok(value) => Ok(value),
        Err(e) if e.kind() == ErrorKind::OutOfMemory => Err(StoreFault::OutOfMemory),
        Err(_) => {
            faults.raise();
            Err(StoreFault::Failed)
        }
    }
}
