// Frames, written.
ghost use Rattle.std.specs.Prelude.{◌≡◌, ◌++◌, ◌∷◌, [], length, IfOk, OnOk};
ghost use Rattle.std.specs.List.{AllByRecursion};
ghost use Rattle.mx_base.specs.AppName.{IsAppName};
ghost use Rattle.partition_frames.specs.Field.{together};
ghost use Rattle.partition_frames.specs.Frame.{HasFolder, IsFolder, IsHead, IsHow, IsList, IsNumber, IsPlace, IsSmall, IsSound, IsText, IsVariable, IsWork, Spells, head_fields, how_fields, IsSent, list_fields, number_field, payload_of, place_fields, text_field, variable_fields, work_fields};

use crate::frame::Frame;
use compile_model::How;
use mx_base::{AppName, Bytes, RelPath, Text, Variable};
use std::alloc::{AllocError, Global};

/// The bytes of a frame.
pub fn write_frame(alloc: Global, frame: &Frame) -> Result<Bytes, AllocError>
    requires small { IsSmall frame.now }
    requires folder { HasFolder frame.now }
    ensures { IfOk result (λ bytes. Spells bytes frame.now) }
{
    let mut payload = Vec::new(alloc);
    push_payload(&mut payload, frame)?;
    let mut bytes = Vec::new(alloc);
    push_number(&mut bytes, payload.len() as u32)?;
    bytes.extend_from_slice(payload.as_slice())?;
    Ok(Bytes::from_vec(bytes))
}

// Kind and body.
fn push_payload(out: &mut Vec<u8>, frame: &Frame) -> Result<(), AllocError>
    requires small { IsSmall frame.now }
    requires folder { HasFolder frame.now }
    ensures bytes { OnOk result (out.new.items ≡ out.old.items ++ payload_of frame.now) }
    ensures sound { OnOk result (IsSound frame.now) }
{
    match frame {
        Frame::Hello { cookie, index } => {
            out.push(1)?;
            push_text(out, cookie.as_slice())?;
            push_number(out, *index)?;
        }
        Frame::Job {
            number,
            env,
            app,
            options,
            how,
            system_env,
            dir,
            needs,
        } => {
            out.push(2)?;
            push_head(out, *number, env, app)?;
            push_work(out, options.as_slice(), how, system_env.as_slice())?;
            push_place(out, dir, needs.as_slice())?;
        }
        Frame::Verdict {
            number,
            status,
            text,
        } => {
            out.push(3)?;
            push_number(out, *number)?;
            push_number(out, *status)?;
            push_text(out, text.as_slice())?;
        }
        Frame::Bye => out.push(4)?,
    }
    Ok(())
}

fn push_number(out: &mut Vec<u8>, number: u32) -> Result<(), AllocError>
    ensures { OnOk result (out.new.items ≡ out.old.items ++ together (number_field number)) }
{
    out.extend_from_slice(&number.to_be_bytes())
}

fn push_text(out: &mut Vec<u8>, bytes: &[u8]) -> Result<(), AllocError>
    requires { IsText bytes.now }
    ensures { OnOk result (out.new.items ≡ out.old.items ++ together (text_field bytes.now)) }
{
    push_number(out, bytes.len() as u32)?;
    out.extend_from_slice(bytes)
}

fn push_name(out: &mut Vec<u8>, name: &AppName) -> Result<(), AllocError>
    ensures bytes { OnOk result (out.new.items ≡ out.old.items ++ together (text_field name.now)) }
    ensures sound { IsAppName name.now }
{
    push_text(out, name.as_str().as_bytes())
}

// Which job is meant.
fn push_head(out: &mut Vec<u8>, number: u32, env: &AppName, app: &AppName) -> Result<(), AllocError>
    ensures bytes { OnOk result (out.new.items
        ≡ out.old.items ++ together (head_fields number env.now app.now)) }
    ensures sound { OnOk result (IsHead number env.now app.now) }
{
    push_number(out, number)?;
    push_name(out, env)?;
    push_name(out, app)?;
    Ok(())
}

fn push_word(out: &mut Vec<u8>, word: &Text) -> Result<(), AllocError>
    requires { IsText word.now }
    ensures { OnOk result (out.new.items ≡ out.old.items ++ together (text_field word.now)) }
{
    push_text(out, word.as_slice())
}

fn push_words(out: &mut Vec<u8>, words: &[Text]) -> Result<(), AllocError>
    requires { IsList IsText words.now }
    ensures { OnOk result (out.new.items
        ≡ out.old.items ++ together (list_fields text_field words.now)) }
{
    push_number(out, words.len() as u32)?;
    for i in 0..words.len() {
        push_word(out, &words[i])?;
    }
    Ok(())
}

fn push_how(out: &mut Vec<u8>, how: &How) -> Result<(), AllocError>
    requires { IsHow how.now }
    ensures { OnOk result (out.new.items ≡ out.old.items ++ together (how_fields how.now)) }
{
    match how {
        How::Nothing => {
            out.push(0)?;
            push_words(out, &[])
        }
        How::Unit => {
            out.push(1)?;
            push_words(out, &[])
        }
        How::Program(words) => {
            out.push(2)?;
            push_words(out, words.as_slice())
        }
    }
}

fn push_variable(out: &mut Vec<u8>, variable: &Variable) -> Result<(), AllocError>
    requires { IsVariable variable.now }
    ensures { OnOk result (out.new.items
        ≡ out.old.items ++ together (variable_fields variable.now)) }
{
    push_text(out, variable.name.as_slice())?;
    push_text(out, variable.value.as_slice())
}

fn push_variables(out: &mut Vec<u8>, variables: &[Variable]) -> Result<(), AllocError>
    requires { IsList IsVariable variables.now }
    ensures { OnOk result (out.new.items
        ≡ out.old.items ++ together (list_fields variable_fields variables.now)) }
{
    push_number(out, variables.len() as u32)?;
    for i in 0..variables.len() {
        push_variable(out, &variables[i])?;
    }
    Ok(())
}

// How it is compiled.
fn push_work(
    out: &mut Vec<u8>,
    options: &[u8],
    how: &How,
    system_env: &[Variable],
) -> Result<(), AllocError>
    requires { IsWork options.now how.now system_env.now }
    ensures { OnOk result (out.new.items
        ≡ out.old.items ++ together (work_fields options.now how.now system_env.now)) }
{
    push_text(out, options)?;
    push_how(out, how)?;
    push_variables(out, system_env)
}

fn push_names(out: &mut Vec<u8>, names: &[AppName]) -> Result<(), AllocError>
    requires { IsNumber (length names.now) }
    ensures bytes { OnOk result (out.new.items
        ≡ out.old.items ++ together (list_fields text_field names.now)) }
    ensures sound { OnOk result (AllByRecursion IsAppName names.now) }
{
    push_number(out, names.len() as u32)?;
    for i in 0..names.len() {
        push_name(out, &names[i])?;
    }
    Ok(())
}

// Its folder.
fn push_folder(out: &mut Vec<u8>, dir: &RelPath) -> Result<(), AllocError>
    requires short { IsText dir.now }
    requires folder { IsSent dir.now }
    ensures bytes { OnOk result (out.new.items ≡ out.old.items ++ together (text_field dir.now)) }
    ensures sound { IsFolder dir.now }
{
    push_text(out, dir.as_str().as_bytes())
}

// Where it lies, and what it needs.
fn push_place(out: &mut Vec<u8>, dir: &RelPath, needs: &[AppName]) -> Result<(), AllocError>
    requires short { IsText dir.now }
    requires few { IsNumber (length needs.now) }
    requires folder { IsSent dir.now }
    ensures bytes { OnOk result (out.new.items
        ≡ out.old.items ++ together (place_fields dir.now needs.now)) }
    ensures sound { OnOk result (IsPlace dir.now needs.now) }
{
    push_folder(out, dir)?;
    push_names(out, needs)?;
    Ok(())
}
