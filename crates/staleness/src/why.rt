// Why something would be built again.
use mx_base::{AppName, RelPath};

/// Why a job would be compiled again, the first that holds in this order.
#[derive(Clone, PartialEq, Eq, Drop)]
pub enum Why {
    /// Nothing was kept of it.
    NoMark,
    /// Its options text is another.
    Options,
    /// The rows of this source differ, or only one of the two listings has it. It is the least such
    /// path in byte order.
    Sources(RelPath),
    /// The first need that is stale itself, that the mark doesn't have at its place, or whose marked
    /// outputs have another digest than the mark says; else the first that only the mark has.
    Need(AppName),
}
