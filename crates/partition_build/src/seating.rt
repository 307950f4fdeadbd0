// Partitions that come to their posts, and leave them.
ghost use Rattle.std.specs.Prelude.{◌≡◌, ◌≤◌, [], length, map, vec_capacity};

use crate::posting::Posting;
use partition_board::Post;
use partition_crew::Meant;
use partition_face::Partition;
use tree_store::Folder;

// Each partition comes to its post. What held them is empty then, with its room.
pub(crate) fn seat<P: Partition, F: Folder>(
    posts: &mut Vec<Post<Meant<P, F>, F>>,
    partitions: &mut Vec<P>,
    mut postings: Vec<Posting<P, F>>,
) -> Vec<Posting<P, F>>
    requires all { length posts.old.items ≡ length partitions.old.items }
    requires empty { postings.items ≡ [] }
    requires room { length posts.old.items ≤ vec_capacity postings }
    ensures posts { map (λ p. p.post) result.items ≡ posts.old.items }
    ensures partitions { map (λ p. p.partition) result.items ≡ partitions.old.items }
    ensures empty { (posts.new.items ≡ []) × (partitions.new.items ≡ []) }
    ensures room { (length result.items ≤ vec_capacity posts.new)
        × (length result.items ≤ vec_capacity partitions.new) }
{
    while let Some(post) = posts.pop() {
        let Some(partition) = partitions.pop() else {
            unreachable!();
        };
        postings.push_reserved(Posting { post, partition });
    }
    postings.reverse();
    postings
}

// Each partition leaves its post.
pub(crate) fn unseat<P: Partition, F: Folder>(
    mut postings: Vec<Posting<P, F>>,
    posts: &mut Vec<Post<Meant<P, F>, F>>,
    partitions: &mut Vec<P>,
)
    requires empty { (posts.old.items ≡ []) × (partitions.old.items ≡ []) }
    requires room { (length postings.items ≤ vec_capacity posts.old)
        × (length postings.items ≤ vec_capacity partitions.old) }
    ensures posts { posts.new.items ≡ map (λ p. p.post) postings.items }
    ensures partitions { partitions.new.items ≡ map (λ p. p.partition) postings.items }
{
    while let Some(posting) = postings.pop() {
        let Posting { post, partition } = posting;
        posts.push_reserved(post);
        partitions.push_reserved(partition);
    }
    postings.destroy_empty();
    posts.reverse();
    partitions.reverse();
}
