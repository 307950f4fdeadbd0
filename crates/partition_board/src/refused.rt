// What `begin` gives back where there was no memory.

/// There was no memory for a board. The folders come back as they were handed in.
#[derive(Drop)]
pub struct BoardRefused<F> {
    /// The folders that were handed in.
    pub folders: Vec<F>,
}
