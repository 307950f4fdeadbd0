// What the definitions imply.
ghost use Rattle.std.specs.Prelude.{◌≡◌, ℕ, List, Result, Ok};
ghost use Rattle.mix_lock.specs.declared.error.LockError.{LockError};
ghost use Rattle.mix_lock.specs.Lock.{AppEntry, IsLock};
ghost use Rattle.mix_lock.specs.Says.{SaysLock};
ghost use Rattle.mix_lock.specs.Text.{written, IsReadable};

use elixir_terms::{no_refusal, one_reading, one_refusal, some_answer};
use version_req::each_is_read_or_refused;

/// No text says two locks, and none is refused in two ways.
pub fn one_lock()
    ensures { (text : List ℕ) (answer other : Result (List AppEntry) LockError)
        → SaysLock text answer → SaysLock text other → answer ≡ other }
{
    one_reading();
    one_refusal();
    no_refusal();
}

/// Each text says a lock, or is refused.
pub fn some_lock()
    ensures { (text : List ℕ)
        → (answer : Result (List AppEntry) LockError) × SaysLock text answer }
{
    some_answer();
    each_is_read_or_refused();
    version_req::one_refusal();
}

/// The text of a lock says that lock, where it is within the limits of terms.
pub fn reads_back()
    ensures { (entries : List AppEntry) → IsLock entries → IsReadable entries
        → SaysLock (written entries) (Ok entries) }
{}

/// The text of such a lock, read and written again, is the same.
pub fn writes_back()
    ensures { (entries read : List AppEntry) → IsLock entries → IsReadable entries
        → SaysLock (written entries) (Ok read) → written read ≡ written entries }
{
    one_lock();
}
