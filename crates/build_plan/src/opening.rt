// What is free for a job in a plan.

/// A place of the order, with the room that is left for the sources of its job.
#[derive(Clone, Copy)]
pub(crate) struct Opening {
    pub at: usize,
    /// How many bytes the sources may have.
    pub room: usize,
}
