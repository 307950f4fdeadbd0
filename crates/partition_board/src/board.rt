// The board, and its calls with a post.
ghost use Rattle.std.specs.Prelude.{◌≡◌, ◌≤◌, ◌<◌, [], ◌∷◌, Some, IfErr, IfOk, length, map};
ghost use Rattle.std.specs.List.{All};
ghost use Rattle.compile_model.specs.Planned.{ArePlanned};
ghost use Rattle.compile_model.specs.Seq.{seq};
ghost use Rattle.partition_core.specs.State.{standing};
ghost use Rattle.partition_core.specs.Refusals.{outcome_of};
ghost use Rattle.partition_core.specs.Histories.{Faithful, IsFaithful, IsMeant, Sound, replay};
ghost use Rattle.turn_board.specs.Seats.{fresh_seats};
ghost use Rattle.partition_board.specs.Holds.{AreLeft, AreReady};
ghost use Rattle.partition_board.specs.Failures.{AreCounted};
ghost use Rattle.partition_board.specs.Posts.{Adds, AreFatesOf, HasReturned, IsEndedPost, IsFreePost, IsHistoryOf, IsIn, Sees, begun_at, begun_in, opening_at, state_at, story_at};
ghost use Rattle.partition_board.specs.Answers.{Answers, IsFront};
ghost use Rattle.partition_board.specs.Leases.{HasCause, IsFailed, IsFinished, IsLeaseOf, IsLent};
ghost use Rattle.partition_board.specs.Steps.{IsLegalOf, SuitsEvent, standing_after};

use crate::closed::Closed;
use crate::house::House;
use crate::lease::Lease;
use crate::refused::BoardRefused;
use crate::state::{BoardState, Post};
use crate::take::{Front, Take};
use crate::taking::{end, front, take_from};
use compile_model::{Meaning, Outcome, Plan, Twin};
use mx_base::Shared;
use partition_core::{BackCause, Core, Event, Kept};
use std::alloc::Global;
use std::marker::Model;
use std::sync::Wait;
use tree_store::Folder;
use turn_board::{TurnBoard, TurnRefused};

/// A board on which partitions build one plan. Contracts see which one it is, and how many posts it has.
#[derive(Drop)]
pub struct Board<M: Meaning, F: Folder> {
    pub(crate) turn: TurnBoard<BoardState<M, F>>,
}

impl<M: Meaning, F: Folder> Model for Board<M, F> {
    ghost use Rattle.std.specs.Prelude.{◌<◌};
    ghost use Rattle.turn_board.specs.Seats.{BoardView};

    ghost Value = { BoardView };

    ghost view = { λ b. b.turn };

    ghost invariant = { λ b. 0 < b.turn.seats };
}

impl<M: Meaning, F: Folder> Board<M, F> {
    /// Begins a build by 1 to 64 partitions, with what was kept of each job or none, and the folder of each job. It
    /// takes all the memory that the calls need, but that for the needs' outcomes in `take`.
    ///
    /// The error gives the folders back, and means that there was no memory.
    pub fn begin(
        alloc: Global,
        plan: Shared<Plan>,
        kept: Vec<Option<Kept>>,
        folders: Vec<F>,
        partitions: u32,
    ) -> Result<(Board<M, F>, Vec<Post<M, F>>), BoardRefused<F>>
        requires planned { ArePlanned plan.jobs }
        requires places { length kept.items ≡ length plan.jobs }
        requires seats { (1 ≤ partitions) × (partitions ≤ 64) }
        requires folders { AreReady (record {
          plan = plan;
          kept = kept.items;
          partitions = partitions;
        }) (map F.known folders.items) }
        ensures board { IfOk result (λ t. t.0.seats ≡ partitions) }
        ensures posts { IfOk result (λ t. t.1.items ≡ fresh_seats t.0 (Some (record {
          build = record { plan = plan; kept = kept.items; partitions = partitions };
          folders = folders.items;
        }))) }
        ensures free { IfOk result (λ t. All (λ p. IsIn t.0.board p × IsFreePost p) t.1.items) }
        ensures refused { IfErr result (λ r. r.folders.items ≡ folders.items) }
    {
        let house = match House::begin(alloc, folders) {
            Ok(house) => house,
            Err(folders) => return Err(BoardRefused { folders }),
        };
        let Ok(core) = Core::begin(alloc, plan, kept, partitions) else {
            return Err(BoardRefused {
                folders: house.gather(),
            });
        };
        let state = BoardState { core, house };
        match TurnBoard::begin(alloc, state, partitions) {
            Ok((turn, posts)) => Ok((Board { turn }, posts)),
            Err(refused) => {
                let TurnRefused { value } = refused;
                let BoardState { house, .. } = value;
                Err(BoardRefused {
                    folders: house.gather(),
                })
            }
        }
    }

    /// Gives the post something to do. With a place that is started come its folder and, in `needs`, the outcomes of
    /// its needs.
    pub fn take<R: Wait>(
        &self,
        rt: &R,
        post: &mut Post<M, F>,
        needs: &mut Vec<Shared<Outcome>>,
    ) -> Take<F>
        requires own { IsIn self.now.board post.old }
        requires free { IsFreePost post.old }
        ensures answer { Answers result post.old post.new }
        ensures front { IsFront (length post.new.seen) result }
        ensures lent { IsLent F.known post.new needs.new.items result }
    {
        needs.clear();
        let by = post.number();
        let BoardState {
            mut core,
            mut house,
        } = self.turn.enter(rt, post);
        let _front = front(&core);
        let took = take_from(&mut core, &mut house, by, needs);
        let _front = front(&core);
        let grew = took.makes_event();
        self.turn.leave(post, BoardState { core, house }, grew);
        took
    }

    /// Hands in a lease whose place is built, and tells how long the history is then. It takes no memory.
    pub fn finish<R: Wait>(
        &self,
        rt: &R,
        post: &mut Post<M, F>,
        lease: Lease<F>,
        outcome: Twin,
    ) -> Front
        requires own { IsIn self.now.board post.old }
        requires finished { IsFinished F.known post.old lease outcome }
        requires meant { M.honest → IsMeant M.compile_of (opening_at post.old)
            (state_at post.old) lease.place outcome.event }
        ensures made { Adds (Event.Finish lease.place post.old.number outcome.event ∷ []) post.old
            post.new }
        ensures front { result.events ≡ length post.new.seen }
        ensures free { IsFreePost post.new }
    {
        let Lease { place, by, folder } = lease;
        let Twin { event, fate } = outcome;
        let finish = Event::Finish {
            place,
            by,
            outcome: event,
        };
        self.end_run(rt, post, finish, Some(fate), folder)
    }

    /// Hands in a lease whose place has failed, and tells how long the history is then. It takes no memory.
    pub fn fail<R: Wait>(
        &self,
        rt: &R,
        post: &mut Post<M, F>,
        lease: Lease<F>,
        outcome: Twin,
    ) -> Front
        requires own { IsIn self.now.board post.old }
        requires failed { IsFailed F.known post.old lease outcome }
        requires meant { M.honest → IsMeant M.compile_of (opening_at post.old)
            (state_at post.old) lease.place outcome.event }
        ensures made { Adds (Event.Fail lease.place post.old.number outcome.event ∷ []) post.old
            post.new }
        ensures front { result.events ≡ length post.new.seen }
        ensures free { IsFreePost post.new }
    {
        let Lease { place, by, folder } = lease;
        let Twin { event, fate } = outcome;
        let fail = Event::Fail {
            place,
            by,
            outcome: event,
        };
        self.end_run(rt, post, fail, Some(fate), folder)
    }

    /// Gives a place back, and tells how long the history is then. The post is live no more. It takes no memory.
    pub fn give_back<R: Wait>(
        &self,
        rt: &R,
        post: &mut Post<M, F>,
        lease: Lease<F>,
        cause: BackCause,
    ) -> Front
        requires own { IsIn self.now.board post.old }
        requires lease { IsLeaseOf F.known post.old lease }
        requires cause { HasCause F.known post.old lease cause }
        ensures made { Adds (Event.Back lease.place post.old.number cause ∷ []) post.old post.new }
        ensures front { result.events ≡ length post.new.seen }
        ensures ended { IsEndedPost post.new }
    {
        let Lease { place, by, folder } = lease;
        self.end_run(rt, post, Event::Back { place, by, cause }, None, folder)
    }

    // An event of the post ends the run of a place, whose folder comes back.
    fn end_run<R: Wait>(
        &self,
        rt: &R,
        post: &mut Post<M, F>,
        event: Event,
        fate: Option<Shared<Outcome>>,
        folder: F,
    ) -> Front
        requires own { IsIn self.now.board post.old }
        requires fate { fate ≡ outcome_of event }
        requires legal { IsLegalOf post.old event }
        requires suits { SuitsEvent F.known (story_at post.old) (begun_at post.old).folders event
            folder }
        requires meant { M.honest → IsFaithful M.compile_of (opening_at post.old)
            (state_at post.old) event }
        ensures made { Adds (event ∷ []) post.old post.new }
        ensures front { result.events ≡ length post.new.seen }
        ensures stands { standing (state_at post.new).standings post.new.number
            ≡ Some (standing_after event) }
    {
        let BoardState {
            mut core,
            mut house,
        } = self.turn.enter(rt, post);
        let _front = front(&core);
        end(&mut core, &mut house, event, fate, folder);
        let front = front(&core);
        self.turn.leave(post, BoardState { core, house }, true);
        front
    }

    /// Waits until the history is longer than this. Meanwhile it takes turns again and again. It takes no memory.
    pub fn wait_past<R: Wait>(&self, rt: &R, post: &mut Post<M, F>, front: Front)
        requires own { IsIn self.now.board post.old }
        ensures sees { Sees post.old post.new }
        ensures past { front.events < length post.new.seen }
    {
        for _ in rt.forever() {
            let now = self.look(rt, post);
            if front.events < now.events {
                return;
            }
        }
        unreachable!()
    }

    // Sees how long the history is.
    fn look<R: Wait>(&self, rt: &R, post: &mut Post<M, F>) -> Front
        requires own { IsIn self.now.board post.old }
        ensures sees { Sees post.old post.new }
        ensures front { result.events ≡ length post.new.seen }
    {
        let BoardState { core, house } = self.turn.enter(rt, post);
        let front = front(&core);
        self.turn.leave(post, BoardState { core, house }, false);
        front
    }

    /// Ends the build, once no lease is out. It takes all posts of the board, in any order, and no memory.
    pub fn close(self, posts: Vec<Post<M, F>>) -> Closed<F>
        requires all { length posts.items ≡ self.seats }
        requires returned { All (HasReturned self.board) posts.items }
        ensures history { IsHistoryOf posts.items result.history.items }
        ensures fates { result.fates.items
            ≡ (replay (begun_in posts.items).build result.history.items).fates }
        ensures faithful { M.honest
            → Faithful M.compile_of (begun_in posts.items).build result.history.items }
        // Each fate is the one of compiling job after job.
        ensures sequential { M.honest → Sound M.compile_of (begun_in posts.items).build
            → AreFatesOf (seq M.compile_of (begun_in posts.items).build.plan.jobs)
            result.fates.items }
        ensures left { AreLeft (begun_in posts.items).build result.fates.items
            (map F.known (begun_in posts.items).folders) (map F.known result.folders.items) }
        ensures counted { AreCounted result.history.items (map F.known result.folders.items) }
    {
        let Board { turn } = self;
        let BoardState { core, house } = turn.close(posts);
        let _front = front(&core);
        let (fates, history) = core.close();
        let folders = house.gather();
        Closed {
            fates,
            folders,
            history,
        }
    }
}
