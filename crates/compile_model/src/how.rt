// How a dependency is compiled.
use mx_base::{ListOf, Text};
use std::alloc::AllocError;

/// Texts in their order.
pub type Texts = ListOf<Text>;

/// How a dependency is compiled.
#[derive(Drop)]
pub enum How {
    /// Not at all: it has no outputs.
    Nothing,
    /// By the built-in compiler.
    Unit,
    /// By a program: its name and its first words.
    Program(Texts),
}

impl Clone for How {
    ghost use Rattle.std.specs.Prelude.{◌≡◌};

    ghost is_clone = { λ how copy. copy ≡ how };

    fn clone(&self) -> Result<How, AllocError> {
        match self {
            How::Nothing => Ok(How::Nothing),
            How::Unit => Ok(How::Unit),
            How::Program(words) => Ok(How::Program(words.clone()?)),
        }
    }
}
