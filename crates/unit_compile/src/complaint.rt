// What is wrong with a line, and in which words.
ghost use Rattle.std.specs.Prelude.{◌≡◌, ◌++◌, OnOk};
ghost use Rattle.unit_compile.specs.Said.{dotted, said_of_cause};
ghost use Rattle.unit_compile.specs.Complaints.{said};

use mx_base::{AppName, Text};
use std::alloc::{AllocError, AllocFailed};
use unit_lang::UnitCause;

/// What is wrong with a line.
#[derive(Clone, Copy)]
pub(crate) enum Complaint<'a> {
    /// The text is no unit.
    Malformed(&'a UnitCause),
    /// An earlier file has the unit.
    UnitThere(&'a Text),
    /// An earlier line defines, exports or uses what has this name.
    There(&'a Text),
    /// No earlier line defines the name.
    Unknown(&'a Text),
    /// No earlier line uses the unit, or it exports no such name.
    UnknownIn { unit: &'a Text, name: &'a Text },
    /// No need has the face.
    Missing { app: &'a AppName, unit: &'a Text },
    /// A value isn't within 64 bits.
    Overflow,
}

/// Why a line isn't taken in.
#[derive(Clone, Copy)]
pub(crate) enum Halt<'a> {
    Wrong(Complaint<'a>),
    OutOfMemory,
}

impl<'a> From<AllocError> for Halt<'a> {
    ghost use Rattle.std.specs.Prelude.{◌≡◌};
    ghost use Rattle.unit_compile.specs.declared.complaint.Halt.TheVariants.{OutOfMemory};

    ghost from_gives = { λ _ halt. halt ≡ OutOfMemory };

    fn from(_: AllocError) -> Halt<'a> {
        Halt::OutOfMemory
    }
}

impl<'a, T: Drop> From<AllocFailed<T>> for Halt<'a> {
    ghost use Rattle.std.specs.Prelude.{◌≡◌};
    ghost use Rattle.unit_compile.specs.declared.complaint.Halt.TheVariants.{OutOfMemory};

    ghost from_gives = { λ _ halt. halt ≡ OutOfMemory };

    fn from(_: AllocFailed<T>) -> Halt<'a> {
        Halt::OutOfMemory
    }
}

impl<'a> From<Complaint<'a>> for Halt<'a> {
    ghost use Rattle.std.specs.Prelude.{◌≡◌};
    ghost use Rattle.unit_compile.specs.declared.complaint.Halt.TheVariants.{Wrong};

    ghost from_gives = { λ complaint halt. halt ≡ Wrong complaint };

    fn from(complaint: Complaint<'a>) -> Halt<'a> {
        Halt::Wrong(complaint)
    }
}

impl<'a> Complaint<'a> {
    /// Adds what is said of it.
    pub(crate) fn push_to(self, text: &mut Vec<u8>) -> Result<(), AllocError>
        ensures { OnOk result (text.new.items ≡ text.old.items ++ said self.entry) }
    {
        match self {
            Complaint::Malformed(cause) => push_text(text, cause_text(cause)),
            Complaint::UnitThere(name) => {
                push_text(text, "unit ")?;
                push_named(text, name, " is there already")
            }
            Complaint::There(name) => push_named(text, name, " is there already"),
            Complaint::Unknown(name) => push_named(text, name, " is unknown"),
            Complaint::UnknownIn { unit, name } => {
                push_dotted(text, unit.as_slice(), name)?;
                push_text(text, " is unknown")
            }
            Complaint::Missing { app, unit } => {
                push_dotted(text, app.as_str().as_bytes(), unit)?;
                push_text(text, " is missing")
            }
            Complaint::Overflow => push_text(text, "overflow"),
        }
    }
}

// What is said of a text that is no unit.
fn cause_text(cause: &UnitCause) -> &str
    ensures { result.now ≡ said_of_cause cause.now }
{
    match cause {
        UnitCause::TooLong => "too long",
        UnitCause::NoUnit => "no unit line",
        UnitCause::TooDeep => "too deep",
        UnitCause::NumberTooBig => "number too big",
        UnitCause::BadLine => "bad line",
        UnitCause::OutOfMemory => "",
    }
}

// Adds a name, and what is said of it.
fn push_named(text: &mut Vec<u8>, name: &Text, said: &str) -> Result<(), AllocError>
    ensures { OnOk result (text.new.items ≡ text.old.items ++ (name.now ++ said.now)) }
{
    text.extend_from_slice(name.as_slice())?;
    push_text(text, said)
}

// Adds a name with what it stands in before it.
fn push_dotted(text: &mut Vec<u8>, first: &[u8], second: &Text) -> Result<(), AllocError>
    ensures { OnOk result (text.new.items ≡ text.old.items ++ dotted first.now second.now) }
{
    text.extend_from_slice(first)?;
    push_text(text, ".")?;
    text.extend_from_slice(second.as_slice())
}

/// Adds a text.
pub(crate) fn push_text(text: &mut Vec<u8>, more: &str) -> Result<(), AllocError>
    ensures { OnOk result (text.new.items ≡ text.old.items ++ more.now) }
{
    text.extend_from_slice(more.as_bytes())
}
