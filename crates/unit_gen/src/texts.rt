// The texts of a generated project.
ghost use Rattle.std.specs.Prelude.{◌≡◌, ◌∷◌, ◌++◌, [], ◌+◌, ◌%◌, IfOk, OnOk, codes, decimal, flat_map, map, string_bytes};
ghost use Rattle.std.specs.List.{concat, join_by};
ghost use Rattle.unit_gen.specs.Seen.{seen};
ghost use Rattle.unit_gen.specs.Texts.{added, declared, manifest, name_of, unit_text, use_line};

use crate::dependency::Dependency;
use std::alloc::{AllocError, Global};

/// What a manifest says of its own app.
#[derive(Clone, Copy)]
pub(crate) struct Head<'a> {
    pub(crate) app: &'a str,
    pub(crate) version: &'a str,
}

/// A number in decimal.
pub(crate) fn decimal(alloc: Global, number: u64) -> Result<String, AllocError>
    ensures { IfOk result (λ text. string_bytes text ≡ decimal number) }
{
    format!(in alloc; "{number}")
}

/// The bytes of a text.
pub(crate) fn bytes_of(text: String) -> Vec<u8>
    ensures { result.items ≡ string_bytes text }
{
    text.into_bytes()
}

/// The name of the dependency of a number.
pub(crate) fn name_of(alloc: Global, number: u32) -> Result<String, AllocError>
    ensures { IfOk result (λ name. string_bytes name ≡ name_of number) }
{
    let tens = number / 10;
    let hundreds = tens / 10;
    let thousands = hundreds / 10;
    let mut name = String::from_str(alloc, "d")?;
    push_digit(&mut name, thousands)?;
    push_digit(&mut name, hundreds)?;
    push_digit(&mut name, tens)?;
    push_digit(&mut name, number)?;
    Ok(name)
}

// Adds the last digit of a number.
#[tactic(auto, using(crate::proofs::TextLemmas::digit_encoded))]
fn push_digit(text: &mut String, number: u32) -> Result<(), AllocError>
    ensures { OnOk result (string_bytes text.new
        ≡ string_bytes text.old ++ (48 + number % 10) ∷ []) }
{
    text.push(char::from(b'0' + (number % 10) as u8))
}

/// A manifest that declares the dependencies of these numbers, which lie in a folder.
pub(crate) fn manifest(
    alloc: Global,
    head: Head<'_>,
    folder: &str,
    numbers: &[u32],
) -> Result<String, AllocError>
    ensures { IfOk result (λ text. string_bytes text
        ≡ manifest head.entry.app.now head.entry.version.now folder.now numbers.now) }
{
    let all = declared_all(alloc, folder, numbers)?;
    let list = all.join(alloc, ", ")?;
    let text = [
        "[app: :",
        head.app,
        ", version: \"",
        head.version,
        "\", deps: [",
        list.as_str(),
        "]]\n",
    ]
    .concat(alloc)?;
    Ok(text)
}

fn declared_all(alloc: Global, folder: &str, numbers: &[u32]) -> Result<Vec<String>, AllocError>
    ensures { IfOk result (λ all. map (λ one. string_bytes one) all.items
        ≡ map (declared folder.now) numbers.now) }
{
    let mut all = Vec::new(alloc);
    for number in numbers {
        all.push(declared(alloc, folder, *number)?)?;
    }
    Ok(all)
}

fn declared(alloc: Global, folder: &str, number: u32) -> Result<String, AllocError>
    ensures { IfOk result (λ text. string_bytes text ≡ declared folder.now number) }
{
    let name = name_of(alloc, number)?;
    let name = name.as_str();
    ["{:", name, ", path: \"", folder, name, "\"}"].concat(alloc)
}

/// The unit of a dependency.
pub(crate) fn unit_text(alloc: Global, one: &Dependency) -> Result<String, AllocError>
    ensures { IfOk result (λ text. string_bytes text ≡ unit_text (seen one.now)) }
{
    let name = name_of(alloc, one.number)?;
    let uses = uses(alloc, &one.needs)?;
    let value = decimal(alloc, one.value as u64)?;
    let sum = sum(alloc, &one.needs)?;
    let text = [
        "unit ",
        name.as_str(),
        "\n",
        uses.as_str(),
        "let base = ",
        value.as_str(),
        "\nlet total = base",
        sum.as_str(),
        "\nexport base\nexport total\n",
    ]
    .concat(alloc)?;
    Ok(text)
}

// The lines that take the units of these into use.
fn uses(alloc: Global, needs: &[u32]) -> Result<String, AllocError>
    ensures { IfOk result (λ text. string_bytes text ≡ flat_map use_line needs.now) }
{
    let mut text = String::new(alloc);
    for need in needs {
        text.push_str(use_line(alloc, *need)?.as_str())?;
    }
    Ok(text)
}

fn use_line(alloc: Global, need: u32) -> Result<String, AllocError>
    ensures { IfOk result (λ text. string_bytes text ≡ use_line need) }
{
    let name = name_of(alloc, need)?;
    let name = name.as_str();
    ["use ", name, ".", name, "\n"].concat(alloc)
}

// The values of these, as they are added.
fn sum(alloc: Global, needs: &[u32]) -> Result<String, AllocError>
    ensures { IfOk result (λ text. string_bytes text ≡ flat_map added needs.now) }
{
    let mut text = String::new(alloc);
    for need in needs {
        text.push_str(added(alloc, *need)?.as_str())?;
    }
    Ok(text)
}

fn added(alloc: Global, need: u32) -> Result<String, AllocError>
    ensures { IfOk result (λ text. string_bytes text ≡ added need) }
{
    let name = name_of(alloc, need)?;
    [" + ", name.as_str(), ".base"].concat(alloc)
}
