// Why a text is no unit, and where.

use std::alloc::AllocError;

/// The first fault of a unit file.
#[derive(Drop)]
pub struct UnitError {
    /// The number of the faulty line, from 1.
    pub line: u32,
    pub cause: UnitCause,
}

/// What is wrong with a line, in the order in which the faults of one line are told.
#[derive(Drop)]
pub enum UnitCause {
    /// The line has more than 4,096 bytes. The file has more than 1 MiB: then it is told at line 1, before all else.
    TooLong,
    /// The first line that isn't blank is no `unit` line. Of a file without one this is told at line 1.
    NoUnit,
    /// Parentheses and minus signs nest more than 64 deep.
    TooDeep,
    /// A number is above 2^63 - 1.
    NumberTooBig,
    /// The line is none of the forms of a line, or a second `unit` line.
    BadLine,
    /// There was not enough memory. This says nothing of the text.
    OutOfMemory,
}

impl From<AllocError> for UnitCause {
    ghost use Rattle.std.specs.Prelude.{◌≡◌};
    ghost use Rattle.unit_lang.specs.declared.error.UnitCause.TheVariants.{OutOfMemory};

    ghost from_gives = { λ _ cause. cause ≡ OutOfMemory };

    fn from(_error: AllocError) -> UnitCause {
        UnitCause::OutOfMemory
    }
}
