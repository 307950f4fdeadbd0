//! The board, with one value that its seats take out and put back in turn.
ghost use Rattle.std.specs.Prelude.{◌≡◌, ℕ, ◌+◌, ◌-◌, ◌%◌, ◌^◌, ◌<◌, ◌≤◌, [], ◌∷◌, length, true, false, IfOk, IfErr, Some, vec_capacity};
ghost use Rattle.std.specs.List.{All, sum_by};
ghost use Rattle.turn_board.specs.Histories.{Continues, account_of, made_by};
ghost use Rattle.turn_board.specs.Sights.{blank};
ghost use Rattle.turn_board.specs.Turn.{IsIdle, IsWaiting, drew, took};
ghost use Rattle.turn_board.specs.Inside.{MayCount, counted_if, dealer, opening_of};
ghost use Rattle.turn_board.specs.Seats.{BoardView, GrewBy, HasSeat, fresh_seats, entered, left};

use crate::counted::Counted;
use crate::plays::{Counts, Cut, Draws, Glue, Looks, Opens, Passes, Turns};
use crate::refused::TurnRefused;
use crate::seat::TurnSeat;
use crate::sight::Sight;
use atomic_table::{Seat, Table};
use std::alloc::Global;
use std::marker::Model;
use std::sync::Wait;
use std::thread::yield_now;

// The words of the table: the tickets drawn, the turns passed on, and the events counted.
const DRAWN: usize = 0;

const PASSED: usize = 1;

const COUNTED: usize = 2;

// The slot of the value.
const VALUE: usize = 0;

/// A value that seats take out and put back, one seat at a time and in the order in which they
/// drew their tickets. Contracts see which board it is, and the number of its seats.
#[derive(Drop)]
pub struct TurnBoard<V: Counted> {
    table: Table<Option<V>, Sight<V::Opening, V::Event>, u64, Turns<V>, Global>,
}

impl<V: Counted> Model for TurnBoard<V> {
    ghost use Rattle.std.specs.Prelude.{◌<◌};
    ghost use Rattle.turn_board.specs.Seats.{BoardView};
    ghost use Rattle.turn_board.specs.Inside.{IsTable};

    ghost Value = { BoardView };

    ghost view = { λ b. record { board = b.table.shared.table_id; seats = b.table.shared.key } };

    ghost invariant = { λ b. IsTable b.table.shared.table_id × (0 < b.table.shared.key) };
}

impl<V: Counted> TurnBoard<V> {
    /// Makes a board for the value, with 1 to 64 seats. It takes all the memory that the board and
    /// its seats ever need.
    ///
    /// The error gives the value back, and means that there was no memory.
    pub fn begin(
        alloc: Global,
        value: V,
        seats: u32,
    ) -> Result<(TurnBoard<V>, Vec<TurnSeat<V>>), TurnRefused<V>>
        requires seats { (1 ≤ seats) × (seats ≤ 64) }
        requires history { V.history value ≡ [] }
        ensures board { IfOk result (λ t. t.0.seats ≡ seats) }
        ensures dealt { IfOk result (λ t. t.1.items ≡ fresh_seats t.0 (Some (V.opening value))) }
        ensures refused { IfErr result (λ r. r.value ≡ value) }
    {
        let Ok(mut all) = Vec::with_capacity(alloc, seats as usize) else {
            return Err(TurnRefused { value });
        };
        let Ok((table, mut first)) = Table::vacant(alloc, &[0, 0, 0], 1, &u64::from(seats)) else {
            return Err(TurnRefused { value });
        };
        let board = TurnBoard { table };
        board.open(&mut first, value);
        board.deal(first, seats, &mut all);
        Ok((board, all))
    }

    /// Waits for the seat's turn, and takes the value out. While it waits, it yields the processor
    /// to other threads again and again.
    pub fn enter<R: Wait>(&self, rt: &R, seat: &mut TurnSeat<V>) -> V
        requires board { seat.old.board ≡ self.now.board }
        requires home { seat.old.has_value ≡ false }
        ensures opening { seat.old.opening ≡ Some (V.opening result) }
        ensures seen { Continues V.maker seat.old.number seat.old.seen (V.history result) }
        ensures seat { seat.new ≡ entered seat.old (V.history result) }
    {
        let ticket = self.draw_ticket(rt, &mut seat.seat);
        self.await_turn(rt, &mut seat.seat, ticket);
        let taken = self.table.shared.exchange(&mut seat.seat, VALUE, None);
        seat.out = true;
        let Some(value) = taken else { unreachable!() };
        value
    }

    /// Puts the value back and passes the turn on. With `grew` the history has one event more than
    /// when the value was taken out, and the seat is its maker; else the history is the same.
    pub fn leave(&self, seat: &mut TurnSeat<V>, value: V, grew: bool)
        requires board { seat.old.board ≡ self.now.board }
        requires taken { seat.old.has_value ≡ true }
        requires opening { seat.old.opening ≡ Some (V.opening value) }
        requires history { GrewBy V.maker seat.old grew (V.history value) }
        ensures { seat.new ≡ left seat.old (V.history value) grew }
    {
        value.is_counted();
        let shared = &self.table.shared;
        let empty = shared.exchange(&mut seat.seat, VALUE, Some(value));
        let None = empty else { unreachable!() };
        self.count(&mut seat.seat, grew);
        shared.fetch_add::<Passes<V>>(&mut seat.seat, PASSED, 1);
        seat.out = false;
    }

    /// Ends the turns and gives the value. It takes all seats of the board, in any order.
    pub fn close(self, mut seats: Vec<TurnSeat<V>>) -> V
        requires all { length seats.items ≡ self.seats }
        requires each { All (λ s. (s.board ≡ self.board) × (s.has_value ≡ false)) seats.items }
        ensures opening { All (λ s. s.opening ≡ Some (V.opening result)) seats.items }
        ensures seen { All (λ s. Continues V.maker s.number s.seen (V.history result)) seats.items }
        ensures counted { length (V.history result) ≡ sum_by (λ s. s.made) seats.items }
        // Who made an event is one of the seats.
        ensures makers { (n : ℕ) → 0 < made_by V.maker n (V.history result)
            → HasSeat seats.items n }
    {
        let TurnBoard { table } = self;
        let Some(last) = seats.pop() else {
            unreachable!()
        };
        let TurnSeat {
            number: _,
            out: _,
            seat: mut keeper,
        } = last;
        while let Some(next) = seats.pop() {
            let TurnSeat {
                number: _,
                out: _,
                seat,
            } = next;
            table.shared.join_seat::<Glue>(&mut keeper, seat);
        }
        let mut closed = table.close_with(keeper);
        let Some(value) = closed.take(VALUE) else {
            unreachable!()
        };
        closed.free();
        value
    }

    // Draws a ticket once the turn is free, so that nobody waits for a seat whose thread isn't
    // running. Unless the words went round since the look, the ticket's turn is at once.
    fn draw_ticket<R: Wait>(
        &self,
        rt: &R,
        seat: &mut Seat<Option<V>, Sight<V::Opening, V::Event>>,
    ) -> u64
        requires own { seat.old.table_id ≡ self.now.board }
        requires idle { IsIdle seat.old.me }
        ensures own { (seat.new.table_id ≡ seat.old.table_id) × (seat.new.id ≡ seat.old.id) }
        ensures drew { drew result seat.old.me seat.new.me }
    {
        let shared = &self.table.shared;
        for _ in rt.forever() {
            let turn = shared.peek(PASSED);
            let next = turn.wrapping_add(1);
            let found = shared.compare_exchange::<Draws<V>>(seat, DRAWN, turn, next);
            if found == turn {
                return found;
            }
            yield_now();
        }
        unreachable!()
    }

    // Looks until it is the turn of this ticket, and then has the slot.
    fn await_turn<R: Wait>(
        &self,
        rt: &R,
        seat: &mut Seat<Option<V>, Sight<V::Opening, V::Event>>,
        ticket: u64,
    )
        requires own { seat.old.table_id ≡ self.now.board }
        requires waits { IsWaiting ticket seat.old.me }
        ensures own { (seat.new.table_id ≡ seat.old.table_id) × (seat.new.id ≡ seat.old.id) }
        ensures took { took (account_of V.opening V.history V.maker) seat.old.me seat.new.me }
    {
        for _ in rt.forever() {
            let turn = self.table.shared.load::<Looks<V>>(seat, PASSED);
            if turn == ticket {
                return;
            }
            yield_now();
        }
        unreachable!()
    }

    // Counts an event, where there is one more.
    fn count(&self, seat: &mut Seat<Option<V>, Sight<V::Opening, V::Event>>, grew: bool)
        requires own { seat.old.table_id ≡ self.now.board }
        requires may { MayCount (account_of V.opening V.history V.maker) grew seat.old.me }
        ensures own { (seat.new.table_id ≡ seat.old.table_id) × (seat.new.id ≡ seat.old.id) }
        ensures counted { seat.new.me ≡ counted_if V.history grew seat.old.me }
    {
        if grew {
            self.table.shared.fetch_add::<Counts<V>>(seat, COUNTED, 1);
        }
    }

    // Puts the first value into the slot, and passes the turn on. The exchange on the word changes
    // nothing that `fetch_add` wouldn't, but it tells the value to the rule.
    fn open(&self, first: &mut Seat<Option<V>, Sight<V::Opening, V::Event>>, value: V)
        requires own { first.old.table_id ≡ self.now.board }
        requires first { first.old.me ≡ (blank self.now.seats, []) }
        requires history { V.history value ≡ [] }
        ensures own { first.new.table_id ≡ first.old.table_id }
        ensures first { first.new.me ≡ dealer self.now.seats 2 (Some (V.opening value)) }
    {
        let shared = &self.table.shared;
        let held = Some(value);
        shared.compare_exchange_with::<Opens<V>>(first, DRAWN, 0, 1, &held);
        let empty = shared.exchange(first, VALUE, held);
        let None = empty else { unreachable!() };
        shared.fetch_add::<Passes<V>>(first, PASSED, 1);
    }

    // Splits the other seats off the first, and lists them all.
    fn deal(
        &self,
        mut first: Seat<Option<V>, Sight<V::Opening, V::Event>>,
        seats: u32,
        all: &mut Vec<TurnSeat<V>>,
    )
        requires own { first.table_id ≡ self.now.board }
        requires first { first.me ≡ dealer seats 2 (opening_of first.me) }
        requires seats { (1 ≤ seats) × (self.now.seats ≡ seats) }
        requires room { (all.old.items ≡ []) × (seats ≤ vec_capacity all.old) }
        ensures { all.new.items ≡ fresh_seats self.now (opening_of first.me) }
    {
        let mut number = 1;
        while number < seats {
            number += 1;
            let seat = self.table.shared.split_seat::<Cut>(&mut first);
            all.push_reserved(TurnSeat {
                number,
                out: false,
                seat,
            });
        }
        let first = TurnSeat {
            number: 1,
            out: false,
            seat: first,
        };
        let Ok(()) = all.insert(0, first) else {
            unreachable!()
        };
    }
}
