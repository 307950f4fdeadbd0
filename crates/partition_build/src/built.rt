// What a build by several partitions leads to.
use compile_model::Fate;
use partition_core::Event;
use partition_crew::BuildFault;

/// What a build by several partitions has led to. Partitions and folders are those that were handed in.
#[derive(Drop)]
pub struct Built<P, F> {
    /// In their order. The first has number 1.
    pub partitions: Vec<P>,
    /// By place.
    pub folders: Vec<F>,
    /// By place. Where there was no memory to begin there is none.
    pub fates: Vec<Option<Fate>>,
    /// The events, the first one first.
    pub history: Vec<Event>,
    /// None where each place has a fate.
    pub fault: Option<BuildFault>,
}
