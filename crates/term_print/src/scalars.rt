// The texts of atoms, integers and strings.
ghost use Rattle.std.specs.Prelude.{◌≡◌, ◌<◌, ◌++◌, true, OnOk};
ghost use Rattle.std.specs.Fmt.{decimal, signed_decimal, digit_glyph};
ghost use Rattle.term_tokens.specs.Names.{is_name, is_name_rest};
ghost use Rattle.term_print.specs.Printed.{letter_of, is_hidden, by_digits, escape, escaped, quoted, name_text, atom_text, key_text};

use std::alloc::AllocError;
use term_tokens::{
    is_bare_atom, is_name_byte, is_name_mark, is_name_start, is_utf8, opens_interpolation,
};

/// Adds an atom.
pub fn print_atom(out: &mut Vec<u8>, name: &[u8]) -> Result<(), AllocError>
    ensures { OnOk result (out.new.items ≡ out.old.items ++ atom_text name.now) }
{
    if is_bare_atom(name) {
        return out.extend_from_slice(name);
    }
    out.push(b':')?;
    print_name(out, name)
}

/// Adds an atom as a keyword's key, with its colon and a space.
pub fn print_atom_key(out: &mut Vec<u8>, name: &[u8]) -> Result<(), AllocError>
    ensures { OnOk result (out.new.items ≡ out.old.items ++ key_text name.now) }
{
    print_name(out, name)?;
    out.extend_from_slice(b": ")
}

/// Adds an integer.
pub fn print_integer(out: &mut Vec<u8>, n: i128) -> Result<(), AllocError>
    ensures { OnOk result (out.new.items ≡ out.old.items ++ signed_decimal n) }
{
    if n < 0 {
        out.push(b'-')?;
    }
    print_digits(out, n.unsigned_abs())
}

/// Adds a string in quotes.
pub fn print_string(out: &mut Vec<u8>, bytes: &[u8]) -> Result<(), AllocError>
    ensures { OnOk result (out.new.items ≡ out.old.items ++ quoted bytes.now) }
{
    let utf8 = is_utf8(bytes);
    out.push(b'"')?;
    let mut rest = bytes;
    while let [byte, after @ ..] = rest {
        print_byte(out, utf8, *byte, after)?;
        rest = after;
    }
    out.push(b'"')?;
    Ok(())
}

// Adds an atom's text without its colon, in quotes where it is no name.
fn print_name(out: &mut Vec<u8>, name: &[u8]) -> Result<(), AllocError>
    ensures { OnOk result (out.new.items ≡ out.old.items ++ name_text name.now) }
{
    if is_name(name) {
        out.extend_from_slice(name)
    } else {
        print_string(out, name)
    }
}

// Adds what stands for a byte in a string, before the bytes that follow it there.
fn print_byte(out: &mut Vec<u8>, utf8: bool, byte: u8, after: &[u8]) -> Result<(), AllocError>
    ensures { OnOk result (out.new.items ≡ out.old.items ++ escape utf8 byte after.now) }
{
    if let Some(letter) = letter_of(byte) {
        out.push(b'\\')?;
        out.push(letter)?;
    } else if opens_interpolation(byte, after) {
        out.push(b'\\')?;
        out.push(byte)?;
    } else if is_hidden(utf8, byte) {
        out.extend_from_slice(b"\\x")?;
        out.push(hexadecimal(byte / 16))?;
        out.push(hexadecimal(byte % 16))?;
    } else {
        out.push(byte)?;
    }
    Ok(())
}

// What stands after the backslash for a byte that has an escape of its own.
fn letter_of(byte: u8) -> Option<u8>
    ensures { result ≡ letter_of byte }
{
    match byte {
        b'\n' => Some(b'n'),
        b'\r' => Some(b'r'),
        b'\t' => Some(b't'),
        0x1B => Some(b'e'),
        0 => Some(b'0'),
        b'"' | b'\\' => Some(byte),
        _ => None,
    }
}

// A control byte, and in a string that is not UTF-8 any byte from 128 on.
fn is_hidden(utf8: bool, byte: u8) -> bool
    ensures { result ≡ is_hidden utf8 byte }
{
    byte < 0x20 || byte == 0x7F || (0x80 <= byte && !utf8)
}

// The digit of a value below 16.
fn hexadecimal(value: u8) -> u8
    requires { value < 16 }
    ensures { result ≡ digit_glyph true value }
{
    if value < 10 {
        b'0' + value
    } else {
        b'A' + (value - 10)
    }
}

// Adds the decimal digits of a number.
fn print_digits(out: &mut Vec<u8>, n: u128) -> Result<(), AllocError>
    ensures { OnOk result (out.new.items ≡ out.old.items ++ decimal n) }
{
    if n >= 10 {
        print_digits(out, n / 10)?;
    }
    out.push(b'0' + (n % 10) as u8)?;
    Ok(())
}

fn is_name(name: &[u8]) -> bool
    ensures { result ≡ is_name name.now }
{
    match name {
        [first, rest @ ..] => is_name_start(*first) && is_name_rest(rest),
        [] => false,
    }
}

// Whether the bytes may follow the first one of a name.
fn is_name_rest(bytes: &[u8]) -> bool
    ensures { result ≡ is_name_rest bytes.now }
{
    let mut rest = bytes;
    while let [byte, after @ ..] = rest {
        if after.is_empty() {
            return is_name_byte(*byte) || is_name_mark(*byte);
        }
        if !is_name_byte(*byte) {
            return false;
        }
        rest = after;
    }
    true
}
