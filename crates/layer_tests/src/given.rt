// What the tests are given.

use mx_base::{FaultPlan, RelPath};
use std::alloc::{AllocError, Global};
use std::test::Fail;

pub(crate) fn path(alloc: Global, text: &str) -> Result<RelPath, Fail> {
    Ok(RelPath::join(alloc, &RelPath::root(alloc), text.as_bytes())?)
}

// The list of this call alone.
pub(crate) fn only(alloc: Global, call: u64) -> Result<Vec<u64>, AllocError> {
    [call].to_vec(alloc)
}

// Only this call fails, and none at 0.
pub(crate) fn failing_at(alloc: Global, call: u64) -> Result<FaultPlan, AllocError> {
    Ok(FaultPlan::new(only(alloc, call)?))
}
