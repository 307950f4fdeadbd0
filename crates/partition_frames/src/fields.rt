// The fields of frames, read. A reader gives what it read and what is left of the text, or how many bytes are left
// where a field is lacking.
ghost use Rattle.std.specs.Prelude.{◌≡◌, ◌++◌, IfOk, IfNone, IfSome, IsFalse, IsTrue, ◌↔◌, length, MatchResult};
ghost use Rattle.mx_base.specs.AppName.{IsAppName};
ghost use Rattle.partition_frames.specs.Field.{together};
ghost use Rattle.partition_frames.specs.Frame.{IsFolder, IsNumber, IsText, number_field, text_field};
ghost use Rattle.partition_frames.specs.Pieces.{IsHowByte, LacksBefore, LacksBy, byte_field};

use mx_base::{AppName, NameError, PathError, RelPath};
use reading::{Fault, Stuck, stuck_at};
use std::alloc::{AllocError, Global};

/// A number of 32 bits.
pub(crate) fn read_number(text: &[u8]) -> Result<(u32, &[u8]), Stuck>
    ensures { MatchResult result
        (λ read. IsNumber read.0 × (text.now ≡ together (number_field read.0) ++ read.1.now))
        (λ stuck. LacksBefore number_field IsNumber text.now stuck.left) }
{
    let [first, second, third, fourth, rest @ ..] = text else {
        return Err(stuck_at(text));
    };
    Ok((u32::from_be_bytes([*first, *second, *third, *fourth]), rest))
}

/// How a job is compiled: nothing, the built-in compiler, a program.
pub(crate) fn read_how_byte(text: &[u8]) -> Result<(u8, &[u8]), Stuck>
    ensures { MatchResult result
        (λ read. IsHowByte read.0 × (text.now ≡ together (byte_field read.0) ++ read.1.now))
        (λ stuck. LacksBefore byte_field IsHowByte text.now stuck.left) }
{
    let [byte, rest @ ..] = text else {
        return Err(stuck_at(text));
    };
    if *byte > 2 {
        return Err(stuck_at(text));
    }
    Ok((*byte, rest))
}

/// The bytes of a text.
pub(crate) fn read_text(text: &[u8]) -> Result<(&[u8], &[u8]), Stuck>
    ensures { MatchResult result
        (λ read. IsText read.0.now × (text.now ≡ together (text_field read.0.now) ++ read.1.now))
        (λ stuck. LacksBefore text_field IsText text.now stuck.left) }
{
    let Ok((count, rest)) = read_number(text) else {
        return Err(stuck_at(text));
    };
    let count = count as usize;
    if rest.len() < count {
        return Err(stuck_at(text));
    }
    Ok((&rest[..count], &rest[count..]))
}

// The name that these bytes are, or none.
fn name_of(alloc: Global, bytes: &[u8]) -> Result<Option<AppName>, AllocError>
    ensures some { IfOk result (λ made. IfSome made (λ name. (name ≡ bytes.now) × IsAppName name)) }
    ensures none { IfOk result (λ made. IfNone made (IsAppName bytes.now → ⊥)) }
{
    match AppName::of(alloc, bytes) {
        Ok(name) => {
            // This call tells what holds of a name.
            let _ = name.as_str();
            Ok(Some(name))
        }
        Err(error) => match error {
            NameError::OutOfMemory => Err(AllocError),
            _ => Ok(None),
        },
    }
}

/// A text that is a name.
pub(crate) fn read_name(alloc: Global, text: &[u8]) -> Result<(AppName, &[u8]), Fault>
    ensures { MatchResult result
        (λ read. IsAppName read.0 × (text.now ≡ together (text_field read.0) ++ read.1.now))
        (LacksBy text_field IsAppName text.now) }
{
    let Ok((bytes, rest)) = read_text(text) else {
        return Err(Fault::Stuck(stuck_at(text)));
    };
    let Some(name) = name_of(alloc, bytes)? else {
        return Err(Fault::Stuck(stuck_at(text)));
    };
    Ok((name, rest))
}

// The folder that these bytes are the path of, or none.
fn folder_of(alloc: Global, bytes: &[u8]) -> Result<Option<RelPath>, AllocError>
    requires { IsText bytes.now }
    ensures some { IfOk result (λ made. IfSome made (λ dir. (dir ≡ bytes.now) × IsFolder dir)) }
    ensures none { IfOk result (λ made. IfNone made (IsFolder bytes.now → ⊥)) }
{
    let root = RelPath::root(alloc);
    match RelPath::join(alloc, &root, bytes) {
        Ok(dir) => {
            if dir.as_str().as_bytes() == bytes && !dir.is_in_build() {
                Ok(Some(dir))
            } else {
                Ok(None)
            }
        }
        Err(PathError::OutOfMemory) => Err(AllocError),
        Err(_) => Ok(None),
    }
}

/// A text that is the path of a folder.
pub(crate) fn read_folder(alloc: Global, text: &[u8]) -> Result<(RelPath, &[u8]), Fault>
    ensures { MatchResult result
        (λ read. IsFolder read.0 × (text.now ≡ together (text_field read.0) ++ read.1.now))
        (LacksBy text_field IsFolder text.now) }
{
    let Ok((bytes, rest)) = read_text(text) else {
        return Err(Fault::Stuck(stuck_at(text)));
    };
    let Some(dir) = folder_of(alloc, bytes)? else {
        return Err(Fault::Stuck(stuck_at(text)));
    };
    Ok((dir, rest))
}
