// What a board leaves.
use compile_model::Fate;
use partition_core::Event;

/// What a board leaves.
#[derive(Drop)]
pub struct Closed<F> {
    /// By place.
    pub fates: Vec<Option<Fate>>,
    /// By place.
    pub folders: Vec<F>,
    /// The events, the first one first.
    pub history: Vec<Event>,
}
