// What a unit without errors is warned of.
ghost use Rattle.std.specs.Prelude.{◌≡◌, List, map, IfOk};
ghost use Rattle.unit_compile.specs.Said.{is_unused};
ghost use Rattle.unit_compile.specs.Views.{Names, warning_in};
ghost use Rattle.unit_compile.specs.Warnings.{warning_of, warnings_of};
ghost use Rattle.unit_lang.specs.declared.unit.Line.{Line as SaidLine};

use crate::complaint::push_text;
use crate::name_set::note_names;
use crate::table::Table;
use mx_base::{Bytes, Stack, Text};
use std::alloc::{AllocError, Global};
use unit_lang::{Line, Statement};

/// What a line is warned of.
#[derive(Drop)]
pub(crate) struct Warning {
    pub(crate) line: u32,
    pub(crate) text: Bytes,
}

/// What lines are warned of, the first on top.
pub(crate) fn warnings_of(alloc: Global, lines: &[Line]) -> Result<Stack<Warning>, AllocError>
    ensures { IfOk result (λ warnings. map warning_in warnings ≡ warnings_of lines.now) }
{
    let mut warnings = Stack::new(alloc);
    let mut named = Table::new(alloc);
    let mut place = lines.len();
    while place > 0 {
        place -= 1;
        let line = &lines[place];
        if let Some(text) = warning_of(alloc, &line.statement, &named)? {
            warnings.push(Warning {
                line: line.number,
                text,
            })?;
        }
        note_names(&mut named, &line.statement)?;
    }
    Ok(warnings)
}

// What a line is warned of, where these names stand on later lines.
fn warning_of(
    alloc: Global,
    statement: &Statement,
    named: &Table<()>,
) -> Result<Option<Bytes>, AllocError>
    ensures { (later : List SaidLine) → Names named.now later
        → IfOk result (λ text. text ≡ warning_of statement.now later) }
{
    match statement {
        Statement::Warn { text } => Ok(Some(text.clone()?)),
        Statement::Let { name, .. } => {
            if named.has(name.as_slice()) {
                Ok(None)
            } else {
                Ok(Some(unused(alloc, name)?))
            }
        }
        Statement::Export { .. } => Ok(None),
        Statement::Use { .. } => Ok(None),
    }
}

fn unused(alloc: Global, name: &Text) -> Result<Bytes, AllocError>
    ensures { IfOk result (λ text. text ≡ is_unused name.now) }
{
    let mut text = Vec::from_slice(alloc, name.as_slice())?;
    push_text(&mut text, " is unused")?;
    Ok(Bytes::from_vec(text))
}
