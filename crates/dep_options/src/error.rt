// Why a list of declarations is refused.
ghost use Rattle.std.specs.Prelude.{◌≡◌, ◌++◌, OnOk, codes};
ghost use Rattle.mx_base.specs.Said.{with_name};
ghost use Rattle.dep_options.specs.Said.{cause_said, options_said};

use mx_base::{Text, push_decimal};
use std::alloc::{AllocError, AllocFailed, Global};

/// The first declaration that is refused, and why.
#[derive(Drop)]
pub struct OptionError {
    /// The place of the declaration, from 0; and 0 where there is no list of declarations.
    pub index: u64,
    pub cause: OptionCause,
}

/// Why a declaration is refused: the first of these that holds, the options from the left.
#[derive(Drop)]
pub enum OptionCause {
    /// It is no `{app, requirement}`, `{app, options}` or `{app, requirement, options}`, or the term is no list.
    Shape,
    /// Its requirement is none.
    BadRequirement,
    /// No option has this name.
    UnknownOption(Text),
    /// The option asks for a source that isn't supported.
    UnsupportedSource(Text),
    /// The option may not have this value.
    BadValue(Text),
    /// It has no requirement, no path and no package.
    NoSource,
    /// There was not enough memory. This says nothing of the declarations.
    OutOfMemory,
}

impl From<AllocError> for OptionCause {
    ghost use Rattle.std.specs.Prelude.{◌≡◌};
    ghost use Rattle.dep_options.specs.declared.error.OptionCause.TheVariants.{OutOfMemory};

    ghost from_gives = { λ _ cause. cause ≡ OutOfMemory };

    fn from(_: AllocError) -> OptionCause {
        OptionCause::OutOfMemory
    }
}

impl<T: Drop> From<AllocFailed<T>> for OptionCause {
    ghost use Rattle.std.specs.Prelude.{◌≡◌};
    ghost use Rattle.dep_options.specs.declared.error.OptionCause.TheVariants.{OutOfMemory};

    ghost from_gives = { λ _ cause. cause ≡ OutOfMemory };

    fn from(_: AllocFailed<T>) -> OptionCause {
        OptionCause::OutOfMemory
    }
}

impl OptionError {
    /// Adds `dependency I: CAUSE`, for people.
    pub fn say(&self, alloc: Global, text: &mut Vec<u8>) -> Result<(), AllocError>
        ensures { OnOk result (text.new.items ≡ text.old.items ++ options_said self.now) }
    {
        text.extend_from_slice(b"dependency ")?;
        push_decimal(alloc, text, self.index)?;
        self.cause.say_after_colon(text)
    }
}

impl OptionCause {
    fn say_after_colon(&self, text: &mut Vec<u8>) -> Result<(), AllocError>
        ensures { OnOk result (text.new.items
            ≡ text.old.items ++ codes ": " ++ cause_said self.now) }
    {
        text.extend_from_slice(b": ")?;
        self.say(text)
    }

    // Adds its name, with that of the option where it has one.
    fn say(&self, text: &mut Vec<u8>) -> Result<(), AllocError>
        ensures { OnOk result (text.new.items ≡ text.old.items ++ cause_said self.now) }
    {
        match self {
            OptionCause::Shape => text.extend_from_slice(b"Shape"),
            OptionCause::BadRequirement => text.extend_from_slice(b"BadRequirement"),
            OptionCause::UnknownOption(name) => push_named(text, b"UnknownOption", name),
            OptionCause::UnsupportedSource(name) => push_named(text, b"UnsupportedSource", name),
            OptionCause::BadValue(name) => push_named(text, b"BadValue", name),
            OptionCause::NoSource => text.extend_from_slice(b"NoSource"),
            OptionCause::OutOfMemory => text.extend_from_slice(b"OutOfMemory"),
        }
    }
}

// A cause with the name that it is about, which need not be UTF-8.
fn push_named(text: &mut Vec<u8>, cause: &[u8], name: &Text) -> Result<(), AllocError>
    ensures { OnOk result (text.new.items ≡ text.old.items ++ with_name cause.now name.now) }
{
    text.extend_from_slice(cause)?;
    text.extend_from_slice(b"(")?;
    text.extend_from_slice(name.as_slice())?;
    text.extend_from_slice(b")")
}
