// What the board passes from post to post.
ghost use Rattle.std.specs.Prelude.{◌≡◌};
ghost use Rattle.partition_core.specs.Refusals.{by_of};

use crate::house::House;
use compile_model::{Meaning, Plan};
use mx_base::Shared;
use partition_core::{Core, Event, Kept};
use std::marker::Model;
use tree_store::Folder;
use turn_board::{Counted, TurnSeat};

/// What a board begins with. No value of it is made: it stands in proofs alone.
pub struct BoardOpening<F> {
    plan: Shared<Plan>,
    kept: Vec<Option<Kept>>,
    partitions: u32,
    folders: Vec<F>,
}

impl<F> Model for BoardOpening<F> {
    ghost use Rattle.partition_board.specs.Begun.{Begun};

    ghost Value = { Begun F };

    ghost view = { λ o. record {
      build = record { plan = o.plan; kept = o.kept.items; partitions = o.partitions };
      folders = o.folders.items;
    } };
}

/// The event core, and the folders that are at home. Contracts see the core's opening and history, and the folders.
#[derive(Drop)]
pub struct BoardState<M: Meaning, F: Folder> {
    pub(crate) core: Core<M>,
    pub(crate) house: House<F>,
}

impl<M: Meaning, F: Folder> Model for BoardState<M, F> {
    ghost use Rattle.partition_board.specs.Homes.{IsHoused, StateView};

    ghost Value = { StateView F };

    ghost view = { λ s. record { story = s.core; house = s.house } };

    ghost invariant = { λ s. IsHoused F.known s.core s.house };
}

impl<M: Meaning, F: Folder> Counted for BoardState<M, F> {
    type Opening = BoardOpening<F>;

    type Event = Event;

    ghost opening = { λ s. record { build = s.story.opening; folders = s.house.handed } };

    ghost history = { λ s. s.story.events };

    ghost maker = { by_of };

    fn is_counted(&self) {
        let _events = self.core.history().len();
    }
}

/// A seat at a board. Its partition has the seat's number. It is live where the history that it has seen has no `Back`
/// of its number, and holds a lease where its number runs a place at the end of that history.
pub type Post<M, F> = TurnSeat<BoardState<M, F>>;
