// The reader of a whole message.
ghost use Rattle.std.specs.Prelude.{◌≡◌, IfOk, IfErr};
ghost use Rattle.hex_messages.specs.declared.error.WireCause.TheVariants.{OutOfMemory};
ghost use Rattle.hex_messages.specs.declared.message.Message.TheVariants as message;
ghost use Rattle.hex_messages.specs.Good.{IsWhole};
ghost use Rattle.hex_messages.specs.Stands.{Stands};
ghost use Rattle.hex_messages.specs.Faults.{IsFirstFault};

use crate::building::package_of;
use crate::checking::check_message;
use crate::error::WireError;
use crate::message::Message;
use crate::package::Package;
use std::alloc::Global;

/// Reads the package that the bytes stand for. Unknown fields are passed over, and of a repeated scalar the
/// last counts. Bytes that stand for no package are refused with their first fault, which takes no memory.
///
/// Takes memory for the package alone, and time linear in the bytes.
///
/// # Errors
///
/// The first fault from the left and its place. `OutOfMemory` comes only of bytes that have no fault.
pub fn read_package(alloc: Global, bytes: &[u8]) -> Result<Package, WireError>
    ensures read { IfOk result (λ whole. Stands bytes.now whole) }
    ensures refused { IfErr result (λ error. IsFirstFault bytes.now error) }
    ensures memory { IfErr result (λ error. error.cause ≡ OutOfMemory
        → IsWhole message.Package bytes.now) }
{
    check_message(Message::Package, 0, bytes)?;
    Ok(package_of(alloc, bytes)?)
}
