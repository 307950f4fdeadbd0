// What the lines of a unit have defined so far.
ghost use Rattle.std.specs.Prelude.{◌≡◌, IfOk, option_map};
ghost use Rattle.unit_compile.specs.Complaints.{said_by};
ghost use Rattle.unit_compile.specs.Faces.{value_of};
ghost use Rattle.unit_compile.specs.Lines.{after, export_after, face_of, let_after, scope_after, used_after};
ghost use Rattle.unit_compile.specs.Said.{dotted};
ghost use Rattle.unit_compile.specs.Values.{empty_scope, known, reference_in};
ghost use Rattle.unit_compile.specs.Views.{Heard, found_scope, needs_in, scope_in, values_in};

use crate::complaint::{Complaint, Halt};
use crate::face::{read_face, table_of};
use crate::needs::Needs;
use crate::table::Table;
use crate::value::value_in;
use mx_base::{AppName, Text, copy_text};
use std::alloc::{AllocError, Global};
use std::collections::BTreeMap;
use unit_lang::{Expression, Line, Statement};

/// What the lines of a unit have defined so far.
#[derive(Drop)]
pub(crate) struct Scope<'a> {
    lets: Table<'a, i64>,
    used: Table<'a, Table<'a, i64>>,
    /// What goes into the face, in the order of names.
    pub(crate) exports: BTreeMap<Text, i64>,
}

/// The first line with which something is wrong.
#[derive(Clone, Copy)]
pub(crate) struct Mistake<'a> {
    pub(crate) line: u32,
    pub(crate) complaint: Complaint<'a>,
}

/// What all lines define, or the first mistake.
pub(crate) fn scope_of<'a>(
    alloc: Global,
    needs: &Needs<'a>,
    lines: &'a [Line],
) -> Result<Result<Scope<'a>, Mistake<'a>>, AllocError>
    ensures { IfOk result (λ found. found_scope found
        ≡ scope_after (needs_in needs.now) empty_scope lines.now) }
{
    let mut scope = Scope::new(alloc);
    for line in lines {
        match scope.hear(alloc, needs, &line.statement) {
            Ok(()) => {}
            Err(Halt::OutOfMemory) => return Err(AllocError),
            Err(Halt::Wrong(complaint)) => {
                return Ok(Err(Mistake {
                    line: line.number,
                    complaint,
                }));
            }
        }
    }
    Ok(Ok(scope))
}

impl<'a> Scope<'a> {
    fn new(alloc: Global) -> Scope<'a>
        ensures { scope_in result ≡ empty_scope }
    {
        Scope {
            lets: Table::new(alloc),
            used: Table::new(alloc),
            exports: BTreeMap::new(alloc),
        }
    }

    /// The value of a name.
    pub(crate) fn value(&self, name: &'a Text) -> Result<i64, Complaint<'a>>
        ensures { said_by result ≡ known name.now ((scope_in self.now).lets name.now) }
    {
        match self.lets.get(name.as_slice()) {
            Some(value) => Ok(*value),
            None => Err(Complaint::Unknown(name)),
        }
    }

    /// The value of a name that another unit exports.
    pub(crate) fn reference(&self, unit: &'a Text, name: &'a Text) -> Result<i64, Complaint<'a>>
        ensures { said_by result ≡ known (dotted unit.now name.now)
            (reference_in (scope_in self.now) unit.now name.now) }
    {
        let Some(values) = self.used.get(unit.as_slice()) else {
            return Err(Complaint::UnknownIn { unit, name });
        };
        match values.get(name.as_slice()) {
            Some(value) => Ok(*value),
            None => Err(Complaint::UnknownIn { unit, name }),
        }
    }

    // Takes in what a line defines.
    fn hear(
        &mut self,
        alloc: Global,
        needs: &Needs<'a>,
        statement: &'a Statement,
    ) -> Result<(), Halt<'a>>
        ensures { Heard (after (needs_in needs.now) (scope_in self.old) statement.now)
            (scope_in self.new) result }
    {
        match statement {
            Statement::Use { app, unit } => self.hear_use(alloc, needs, app, unit),
            Statement::Let { name, value } => self.hear_let(name, value),
            Statement::Export { name } => self.hear_export(name),
            Statement::Warn { .. } => Ok(()),
        }
    }

    fn hear_use(
        &mut self,
        alloc: Global,
        needs: &Needs<'a>,
        app: &'a AppName,
        unit: &'a Text,
    ) -> Result<(), Halt<'a>>
        ensures { Heard (used_after (needs_in needs.now) (scope_in self.old) app.now unit.now)
            (scope_in self.new) result }
    {
        if self.used.has(unit.as_slice()) {
            return Err(Halt::Wrong(Complaint::There(unit)));
        }
        match values_of(alloc, needs, app, unit)? {
            Some(values) => {
                self.used.insert(unit.as_slice(), values)?;
                Ok(())
            }
            None => Err(Halt::Wrong(Complaint::Missing { app, unit })),
        }
    }

    fn hear_let(&mut self, name: &'a Text, value: &'a Expression) -> Result<(), Halt<'a>>
        ensures { Heard (let_after (scope_in self.old) name.now value.now)
            (scope_in self.new) result }
    {
        if self.lets.has(name.as_slice()) {
            return Err(Halt::Wrong(Complaint::There(name)));
        }
        let value = value_in(self, value)?;
        self.lets.insert(name.as_slice(), value)?;
        Ok(())
    }

    fn hear_export(&mut self, name: &'a Text) -> Result<(), Halt<'a>>
        ensures { Heard (export_after (scope_in self.old) name.now) (scope_in self.new) result }
    {
        if self.exports.contains_key(name) {
            return Err(Halt::Wrong(Complaint::There(name)));
        }
        let value = self.value(name)?;
        self.exports.insert(copy_text(name)?, value)?;
        Ok(())
    }
}

// The values that a unit of a need exports, where it has a face.
fn values_of<'a>(
    alloc: Global,
    needs: &Needs<'a>,
    app: &AppName,
    unit: &Text,
) -> Result<Option<Table<'a, i64>>, AllocError>
    ensures { IfOk result (λ values. values_in values
        ≡ option_map value_of (face_of (needs_in needs.now) app.now unit.now)) }
{
    let Some(text) = needs.face(alloc, app, unit)? else {
        return Ok(None);
    };
    match read_face(alloc, text)? {
        Some(exports) => Ok(Some(table_of(alloc, exports.as_slice())?)),
        None => Ok(None),
    }
}
