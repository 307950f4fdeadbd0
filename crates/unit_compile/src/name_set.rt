// The names that lines name.
ghost use Rattle.std.specs.Prelude.{◌≡◌, ◌||◌, ℕ, List, is_some, OnOk};
ghost use Rattle.unit_compile.specs.Views.{in_table};
ghost use Rattle.unit_compile.specs.Warnings.{is_in, is_named_by};

use crate::table::Table;
use std::alloc::AllocError;
use unit_lang::{Expression, Statement};

/// Adds the names that a line names.
pub(crate) fn note_names<'a>(
    named: &mut Table<'a, ()>,
    statement: &'a Statement,
) -> Result<(), AllocError>
    ensures { OnOk result ((name : List ℕ) → is_some (in_table named.new name)
        ≡ (is_named_by name statement.now || is_some (in_table named.old name))) }
{
    match statement {
        Statement::Let { value, .. } => note_value(named, value),
        Statement::Export { name } => named.insert(name.as_slice(), ()),
        Statement::Use { .. } => Ok(()),
        Statement::Warn { .. } => Ok(()),
    }
}

// Adds the names that an expression has.
fn note_value<'a>(named: &mut Table<'a, ()>, value: &'a Expression) -> Result<(), AllocError>
    ensures { OnOk result ((name : List ℕ) → is_some (in_table named.new name)
        ≡ (is_in name value.now || is_some (in_table named.old name))) }
{
    match value {
        Expression::Number(_) => Ok(()),
        Expression::Name(name) => named.insert(name.as_slice(), ()),
        Expression::Reference { .. } => Ok(()),
        Expression::Add(left, right) => {
            note_value(named, left.get())?;
            note_value(named, right.get())
        }
        Expression::Subtract(left, right) => {
            note_value(named, left.get())?;
            note_value(named, right.get())
        }
        Expression::Multiply(left, right) => {
            note_value(named, left.get())?;
            note_value(named, right.get())
        }
        Expression::Negate(inner) => note_value(named, inner.get()),
    }
}
