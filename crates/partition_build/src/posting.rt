// Partitions at their posts.
use partition_board::Post;
use partition_crew::Meant;
use partition_face::Partition;
use tree_store::Folder;

/// A partition at its post.
#[derive(Drop)]
pub(crate) struct Posting<P: Partition, F: Folder> {
    pub(crate) post: Post<Meant<P, F>, F>,
    pub(crate) partition: P,
}
