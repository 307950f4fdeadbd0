// The lists of frames, read.
ghost use Rattle.std.specs.Prelude.{◌≡◌, ◌++◌, ◌^◌, ◌<◌, flat_map, length, MatchResult};
ghost use Rattle.mx_base.specs.AppName.{IsAppName};
ghost use Rattle.partition_frames.specs.Field.{together};
ghost use Rattle.partition_frames.specs.Frame.{IsHow, IsList, IsText, IsVariable, how_fields, list_fields, text_field, variable_fields};
ghost use Rattle.partition_frames.specs.Pieces.{IsShortList, LacksBy, SoMany, how_of, room};

use crate::fields::{read_how_byte, read_name, read_number, read_text};
use compile_model::{How, Texts};
use mx_base::{AppName, ListOf, Names, Text, Variable, Variables};
use reading::{Fault, stuck_at};
use std::alloc::Global;

// So many texts.
fn read_texts(alloc: Global, count: u32, text: &[u8]) -> Result<(Vec<Text>, &[u8]), Fault>
    ensures { MatchResult result
        (λ read. SoMany IsText count read.0.items
        × (text.now ≡ together (flat_map text_field read.0.items) ++ read.1.now))
        (LacksBy (flat_map text_field) (SoMany IsText count) text.now) }
{
    let mut texts = Vec::new(alloc);
    let mut rest = text;
    'texts: for _ in 0..count {
        let (bytes, after) = read_text(rest)?;
        let copy = Text::from_slice(alloc, bytes)?;
        texts.push(copy)?;
        rest = after;
    }
    Ok((texts, rest))
}

// Words have fewer than this.
fn room(may_have: bool) -> u64
    ensures { result ≡ room may_have }
{
    if may_have { 1 << 32 } else { 1 }
}

// A list of texts, which is empty unless it may have some.
fn read_words(alloc: Global, may_have: bool, text: &[u8]) -> Result<(Texts, &[u8]), Fault>
    ensures { MatchResult result
        (λ read. IsShortList (room may_have) IsText read.0
        × (text.now ≡ together (list_fields text_field read.0) ++ read.1.now))
        (LacksBy (list_fields text_field) (IsShortList (room may_have) IsText) text.now) }
{
    let Ok((count, rest)) = read_number(text) else {
        return Err(Fault::Stuck(stuck_at(text)));
    };
    if u64::from(count) >= room(may_have) {
        return Err(Fault::Stuck(stuck_at(text)));
    }
    let (words, rest) = read_texts(alloc, count, rest)?;
    Ok((ListOf::from_vec(words), rest))
}

fn how_of(byte: u8, words: Texts) -> How
    ensures { result ≡ how_of byte words }
{
    match byte {
        0 => How::Nothing,
        1 => How::Unit,
        _ => How::Program(words),
    }
}

/// How a job is compiled.
pub(crate) fn read_how(alloc: Global, text: &[u8]) -> Result<(How, &[u8]), Fault>
    ensures { MatchResult result
        (λ read. IsHow read.0 × (text.now ≡ together (how_fields read.0) ++ read.1.now))
        (LacksBy how_fields IsHow text.now) }
{
    let (byte, rest) = read_how_byte(text)?;
    let (words, rest) = read_words(alloc, byte == 2, rest)?;
    Ok((how_of(byte, words), rest))
}

// A variable and its value.
fn read_variable(alloc: Global, text: &[u8]) -> Result<(Variable, &[u8]), Fault>
    ensures { MatchResult result
        (λ read. IsVariable read.0 × (text.now ≡ together (variable_fields read.0) ++ read.1.now))
        (LacksBy variable_fields IsVariable text.now) }
{
    let (name, rest) = read_text(text)?;
    let (value, rest) = read_text(rest)?;
    let variable = Variable {
        name: Text::from_slice(alloc, name)?,
        value: Text::from_slice(alloc, value)?,
    };
    Ok((variable, rest))
}

// So many variables.
fn read_pairs(alloc: Global, count: u32, text: &[u8]) -> Result<(Vec<Variable>, &[u8]), Fault>
    ensures { MatchResult result
        (λ read. SoMany IsVariable count read.0.items
        × (text.now ≡ together (flat_map variable_fields read.0.items) ++ read.1.now))
        (LacksBy (flat_map variable_fields) (SoMany IsVariable count) text.now) }
{
    let mut pairs = Vec::new(alloc);
    let mut rest = text;
    'pairs: for _ in 0..count {
        let (pair, after) = read_variable(alloc, rest)?;
        pairs.push(pair)?;
        rest = after;
    }
    Ok((pairs, rest))
}

/// A list of variables.
pub(crate) fn read_variables(alloc: Global, text: &[u8]) -> Result<(Variables, &[u8]), Fault>
    ensures { MatchResult result
        (λ read. IsList IsVariable read.0
        × (text.now ≡ together (list_fields variable_fields read.0) ++ read.1.now))
        (LacksBy (list_fields variable_fields) (IsList IsVariable) text.now) }
{
    let (count, rest) = read_number(text)?;
    let (pairs, rest) = read_pairs(alloc, count, rest)?;
    Ok((ListOf::from_vec(pairs), rest))
}

// So many names.
fn read_apps(alloc: Global, count: u32, text: &[u8]) -> Result<(Vec<AppName>, &[u8]), Fault>
    ensures { MatchResult result
        (λ read. SoMany IsAppName count read.0.items
        × (text.now ≡ together (flat_map text_field read.0.items) ++ read.1.now))
        (LacksBy (flat_map text_field) (SoMany IsAppName count) text.now) }
{
    let mut apps = Vec::new(alloc);
    let mut rest = text;
    'apps: for _ in 0..count {
        let (app, after) = read_name(alloc, rest)?;
        apps.push(app)?;
        rest = after;
    }
    Ok((apps, rest))
}

/// A list of names.
pub(crate) fn read_names(alloc: Global, text: &[u8]) -> Result<(Names, &[u8]), Fault>
    ensures { MatchResult result
        (λ read. IsList IsAppName read.0
        × (text.now ≡ together (list_fields text_field read.0) ++ read.1.now))
        (LacksBy (list_fields text_field) (IsList IsAppName) text.now) }
{
    let (count, rest) = read_number(text)?;
    let (apps, rest) = read_apps(alloc, count, rest)?;
    Ok((ListOf::from_vec(apps), rest))
}
