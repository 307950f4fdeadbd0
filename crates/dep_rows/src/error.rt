// Why there are no rows.

use std::alloc::AllocError;

/// Why there are no rows.
#[derive(Drop)]
pub enum RowsError<F> {
    /// The children of a winner aren't known.
    Children(F),
    /// There are more than 65,536.
    TooManyRows,
    OutOfMemory,
}

impl<F> From<AllocError> for RowsError<F> {
    ghost use Rattle.std.specs.Prelude.{◌≡◌};
    ghost use Rattle.dep_rows.specs.declared.error.RowsError.TheVariants.{OutOfMemory};

    ghost from_gives = { λ _ e. e ≡ OutOfMemory };

    fn from(_: AllocError) -> RowsError<F> {
        RowsError::OutOfMemory
    }
}
