// Environment variables.

use crate::list_of::ListOf;
use crate::text::Text;
use std::alloc::AllocError;

/// Variables and their values, in their order.
pub type Variables = ListOf<Variable>;

/// An environment variable for the compiler of a dependency.
#[derive(Drop)]
pub struct Variable {
    /// Its name.
    pub name: Text,
    /// What it is set to.
    pub value: Text,
}

impl Clone for Variable {
    ghost use Rattle.std.specs.Prelude.{◌≡◌};

    ghost is_clone = { λ variable copy. copy ≡ variable };

    fn clone(&self) -> Result<Variable, AllocError> {
        Ok(Variable {
            name: self.name.clone()?,
            value: self.value.clone()?,
        })
    }
}
