// A partition in another process.
ghost use Rattle.std.specs.Prelude.{◌≡◌, ◌+◌, length, refl};
ghost use Rattle.mx_base.specs.Causes.{Counted};
ghost use Rattle.compile_model.specs.Content.{empty_outcome};
ghost use Rattle.compile_model.specs.Planned.{IsNamed};
ghost use Rattle.tree_store.specs.FolderKnown.{IsBare};
ghost use Rattle.partition_face.specs.Counts.{CanRun, fresh};
ghost use Rattle.partition_face.specs.Runs.{NeverMarks, has_died, tree_failed};
ghost use Rattle.partition_link.specs.Channel.{channel_of};
ghost use Rattle.partition_link.specs.Run.{Asks, asked};

use crate::asking::{ask, question};
use compile_model::{Input, Meaning, Verdict};
use partition_face::{Counts, Link, Partition, RunFault};
use partition_frames::FrameReader;
use std::alloc::Global;
use tree_store::Folder;

/// A partition that compiles in another process, which is reached over a link. What it compiles to isn't known, so it
/// isn't honest, and the process writes into the folder itself, past the one that is lent for a run.
#[derive(Drop)]
pub struct LinkPartition<L: Link> {
    link: L,
    reader: FrameReader,
    counts: Counts,
}

impl<L: Link> LinkPartition<L> {
    /// A partition that has made no run, over a link and the reader of what came over it so far.
    pub fn new(link: L, reader: FrameReader) -> LinkPartition<L>
        ensures link { result.link ≡ link }
        ensures reader { result.reader ≡ reader }
        ensures counts { result.counts ≡ fresh }
    {
        LinkPartition {
            link,
            reader,
            counts: Counts::new(),
        }
    }

    /// Gives the link back.
    pub fn into_link(self) -> L
        ensures { result ≡ self.link }
    {
        let LinkPartition { link, .. } = self;
        link
    }
}

impl<L: Link> Meaning for LinkPartition<L> {
    ghost compile_of = { λ _. empty_outcome };

    ghost honest = { ⊥ };

    ghost files_in_order = { λ _. tt };

    ghost failed_is_bare = { λ _ _. refl };

    ghost nothing_is_empty = { λ _ _. refl };
}

impl<L: Link + Send> Partition for LinkPartition<L> {
    ghost counted = { λ partition. partition.counts };

    ghost lasting = { ⊥ };

    fn counts(&self) -> Counts {
        self.counts
    }

    /// Sends the job under the number of the run, in 32 bits, and waits for the verdict of that number. `Died` says
    /// that the link failed, that the peer closed, that other bytes came, or that the job is none that can be sent.
    fn run<F: Folder>(
        &mut self,
        alloc: Global,
        input: &Input,
        folder: &mut F,
    ) -> Result<Verdict, RunFault>
        requires needs { length input.now.needs.now ≡ length input.now.job.now.needs }
        requires named { IsNamed input.now.job.now }
        requires bare { IsBare (F.known folder.old) }
        requires able { CanRun self.old.counts }
        ensures asks { Asks (asked self.new.counts.runs (F.known folder.old).key.env input.now.job.now)
            (channel_of (L.known self.old.link) self.old.reader)
            (channel_of (L.known self.new.link) self.new.reader) result }
        ensures folder { folder.new ≡ folder.old }
        ensures unmarked { NeverMarks (F.known folder.old) (F.known folder.new) }
        ensures runs { self.new.counts.runs ≡ self.old.counts.runs + 1 }
        ensures died { Counted self.old.counts.deaths self.new.counts.deaths (has_died result) }
        ensures tree { Counted (F.known folder.old).faults (F.known folder.new).faults
            (tree_failed result) }
    {
        self.counts.runs += 1;
        let question = question(alloc, self.counts.runs, folder.env(), input.job)?;
        let answer = ask(alloc, &mut self.link, &mut self.reader, &question);
        if matches!(&answer, Err(RunFault::Died)) {
            self.counts.deaths += 1;
        }
        answer
    }
}
