// What a build's outcomes mean.
use compile_model::Meaning;
use partition_face::Partition;
use std::marker::PhantomData;
use tree_store::Folder;

/// The meaning of a build by partitions and folders of these types: that of the partitions. It is honest where they
/// are and the folders tell what they hold. No value of it is made.
pub struct Meant<P: Partition, F: Folder> {
    partitions: PhantomData<P>,
    folders: PhantomData<F>,
}

impl<P: Partition, F: Folder> Meaning for Meant<P, F> {
    ghost compile_of = { P.compile_of };

    ghost honest = { P.honest × F.tells };

    ghost files_in_order = { P.files_in_order };

    ghost failed_is_bare = { P.failed_is_bare };

    ghost nothing_is_empty = { P.nothing_is_empty };
}
