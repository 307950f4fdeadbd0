// Why some place has no fate.
ghost use Rattle.std.specs.Prelude.{◌≡◌, ◌<◌, ◌^◌, length, is_some, map};
ghost use Rattle.std.specs.List.{list_all, list_any};
ghost use Rattle.partition_build.specs.Built.{all_fated, fault_by, has_died, is_tree_back};

use crate::built::Built;
use compile_model::Fate;
use partition_core::{BackCause, Event};
use partition_crew::BuildFault;
use partition_face::Partition;

// Why some place of so many has no fate.
pub(crate) fn fault_of<P: Partition, F>(places: usize, built: &Built<P, F>) -> Option<BuildFault>
    requires few { length built.now.partitions.items < 2 ^ 32 }
    ensures { result ≡ fault_by (all_fated places built.now.fates.items)
        (list_any is_tree_back built.now.history.items)
        (list_all has_died (map P.counted built.now.partitions.items))
        (length built.now.partitions.items) }
{
    if are_fated(places, built.fates.as_slice()) {
        return None;
    }
    if has_failure(built.history.as_slice()) {
        return Some(BuildFault::TreeFault);
    }
    if have_died(built.partitions.as_slice()) {
        return Some(BuildFault::NoPartitionLeft {
            died: built.partitions.len() as u32,
        });
    }
    Some(BuildFault::OutOfMemory)
}

// Whether each of so many places has a fate.
fn are_fated(places: usize, fates: &[Option<Fate>]) -> bool
    ensures { result ≡ all_fated places fates.now }
{
    fates.len() == places && have_fates(fates)
}

fn have_fates(fates: &[Option<Fate>]) -> bool
    ensures { result ≡ list_all is_some fates.now }
{
    fates.iter().all(|fate| fate.is_some())
}

// Whether a place was given back because its folder failed.
fn has_failure(history: &[Event]) -> bool
    ensures { result ≡ list_any is_tree_back history.now }
{
    history.iter().any(|event| is_tree_back(event))
}

fn is_tree_back(event: &Event) -> bool
    ensures { result ≡ is_tree_back event.now }
{
    match event {
        Event::Back {
            cause: BackCause::Tree,
            ..
        } => true,
        _ => false,
    }
}

// Whether each partition has died.
fn have_died<P: Partition>(partitions: &[P]) -> bool
    ensures { result ≡ list_all has_died (map P.counted partitions.now) }
{
    partitions.iter().all(|partition| has_died(partition))
}

fn has_died<P: Partition>(partition: &P) -> bool
    ensures { result ≡ has_died (P.counted partition.now) }
{
    partition.counts().deaths != 0
}
