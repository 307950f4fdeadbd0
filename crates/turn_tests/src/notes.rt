//! A list of numbers, each with the seat that added it.
ghost use Rattle.std.specs.Prelude.{◌≡◌, ◌<◌, ◌^◌, length, true, false};

use std::sync::Wait;
use turn_board::{Counted, TurnBoard, TurnSeat};

/// The list, which is the history, below a first number, which is the opening.
#[derive(Drop)]
pub(crate) struct Notes {
    pub(crate) first: u64,
    pub(crate) items: Vec<(u32, u64)>,
}

impl Counted for Notes {
    type Opening = u64;

    type Event = (u32, u64);

    ghost opening = { λ n. n.first };

    ghost history = { λ n. n.items.items };

    ghost maker = { λ e. e.0 };

    fn is_counted(&self) {
        let _length = self.items.len();
    }
}

/// Adds a number, as the last of all, where there is memory.
pub(crate) fn add<R: Wait>(
    rt: &R,
    board: &TurnBoard<Notes>,
    seat: &mut TurnSeat<Notes>,
    number: u64,
)
    requires { (seat.old.board ≡ board.now.board) × (seat.old.has_value ≡ false) }
    ensures { (seat.new.board ≡ seat.old.board) × (seat.new.has_value ≡ false) }
{
    let mut notes = board.enter(rt, seat);
    let by = seat.number();
    match notes.items.push((by, number)) {
        Ok(()) => board.leave(seat, notes, true),
        Err(_) => board.leave(seat, notes, false),
    }
}

/// Adds the numbers below this one.
pub(crate) fn add_all<R: Wait>(
    rt: &R,
    board: &TurnBoard<Notes>,
    seat: &mut TurnSeat<Notes>,
    end: u64,
)
    requires { (seat.old.board ≡ board.now.board) × (seat.old.has_value ≡ false) }
    ensures { (seat.new.board ≡ seat.old.board) × (seat.new.has_value ≡ false) }
{
    for number in 0..end {
        add(rt, board, seat, number);
    }
}
