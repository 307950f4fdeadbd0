// Leases.

/// A place that the partition of this number runs, with the place's folder.
#[derive(Drop)]
pub struct Lease<F> {
    /// A job of the plan.
    pub place: u32,
    /// The number of the partition, from 1.
    pub by: u32,
    /// Where the job is compiled into.
    pub folder: F,
}
