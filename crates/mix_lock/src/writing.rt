// Locks, written.
ghost use Rattle.std.specs.Prelude.{◌≡◌, ◌++◌, Ok, IfOk, OnOk, flat_map};
ghost use Rattle.term_print.specs.Printed.{printed};
ghost use Rattle.mix_lock.specs.Says.{SaysLock};
ghost use Rattle.mix_lock.specs.Text.{entry_term, key_text, line_text, written, IsReadable};

use crate::entry::Entry;
use crate::lock::Lock;
use crate::written::hex_term;
use elixir_terms::print;
use mx_base::{AppName, Bytes};
use std::alloc::{AllocError, Global};

/// The text of a lock: a line for each app, in order.
///
/// # Errors
///
/// Memory ran out.
pub fn write_lock(alloc: Global, lock: &Lock) -> Result<Bytes, AllocError>
    ensures text { IfOk result (λ bytes. bytes ≡ written lock.now) }
    // What is within the limits of terms reads back.
    ensures reads_back { IsReadable lock.now → IfOk result (λ bytes. SaysLock bytes (Ok lock.now)) }
{
    let mut text = Vec::new(alloc);
    text.extend_from_slice(b"%{\n")?;
    push_lines(alloc, &mut text, lock.as_slice())?;
    text.extend_from_slice(b"}\n")?;
    Ok(Bytes::from_vec(text))
}

fn push_lines(
    alloc: Global,
    text: &mut Vec<u8>,
    entries: &[(AppName, Entry)],
) -> Result<(), AllocError>
    ensures { OnOk result (text.new.items ≡ text.old.items ++ flat_map line_text entries.now) }
{
    for entry in entries {
        push_line(alloc, text, entry)?;
    }
    Ok(())
}

fn push_line(alloc: Global, text: &mut Vec<u8>, entry: &(AppName, Entry)) -> Result<(), AllocError>
    ensures { OnOk result (text.new.items ≡ text.old.items ++ line_text entry.now) }
{
    push_key(text, &entry.0)?;
    push_entry(alloc, text, &entry.1)?;
    text.extend_from_slice(b",\n")
}

fn push_key(text: &mut Vec<u8>, app: &AppName) -> Result<(), AllocError>
    ensures { OnOk result (text.new.items ≡ text.old.items ++ key_text app.now) }
{
    text.extend_from_slice(b"  \"")?;
    text.extend_from_slice(app.as_str().as_bytes())?;
    text.extend_from_slice(b"\": ")
}

fn push_entry(alloc: Global, text: &mut Vec<u8>, entry: &Entry) -> Result<(), AllocError>
    ensures { OnOk result (text.new.items ≡ text.old.items ++ printed (entry_term entry.now)) }
{
    let printed = match entry {
        Entry::Hex(entry) => print(alloc, &hex_term(alloc, entry)?)?,
        Entry::Other(term) => print(alloc, term)?,
    };
    text.extend_from_slice(printed.as_slice())
}
