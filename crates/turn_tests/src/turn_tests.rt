// Seats in turn, one after another and on several threads.
ghost use Rattle.std.specs.Prelude.{◌≡◌, ◌≤◌, ◌<◌, length, false, IfSome};
ghost use Rattle.std.specs.List.{All};

use crate::notes::{Notes, add, add_all};
use std::alloc::{AllocError, Global};
use std::sync::Wait;
use std::test::Fail;
use std::thread::{Threads, for_each_mut};
use turn_board::{TurnBoard, TurnSeat};

#[test]
fn two_seats_add_in_turn(rt: HostRuntime) -> Result<(), Fail> {
    let alloc: Global = rt.alloc();
    let notes = Notes {
        first: 7,
        items: Vec::new(alloc),
    };
    let Ok((board, mut seats)) = TurnBoard::begin(alloc, notes, 2) else {
        return Err(AllocError)?;
    };
    let (Some(mut two), Some(mut one)) = (seats.pop(), seats.pop()) else {
        unreachable!()
    };
    add(&rt, &board, &mut one, 5);
    add(&rt, &board, &mut two, 6);
    let notes = board.enter(&rt, &mut one);
    let seen = notes.items.len();
    board.leave(&mut one, notes, false);
    let numbers = (one.number(), two.number());
    let notes = board.close(vec![in alloc; one, two]?);
    assert_eq!(rt; (seen, numbers, notes.first), (2, (1, 2), 7));
    assert_eq!(rt; notes.items.as_slice(), [(1, 5), (2, 6)].as_slice());
    Ok(())
}

// A board for an empty list, with its seats.
fn begun(alloc: Global, seats: u32) -> Option<(TurnBoard<Notes>, Vec<TurnSeat<Notes>>)>
    requires { (1 ≤ seats) × (seats ≤ 64) }
    ensures all { IfSome result (λ t. length t.1.items ≡ t.0.seats) }
    ensures each { IfSome result (λ t. All (λ s. (s.board ≡ t.0.board) × (s.has_value ≡ false)) t.1.items) }
{
    let notes = Notes {
        first: 7,
        items: Vec::new(alloc),
    };
    let Ok((board, dealt)) = TurnBoard::begin(alloc, notes, seats) else {
        return None;
    };
    Some((board, dealt))
}

// Each seat adds the numbers below `end`, on this many threads.
fn add_together<R: Threads + Wait + Sync>(
    rt: &R,
    board: &TurnBoard<Notes>,
    seats: &mut [TurnSeat<Notes>],
    threads: usize,
    end: u64,
)
    requires threads { 0 < threads }
    requires each { All (λ s. (s.board ≡ board.now.board) × (s.has_value ≡ false)) seats.old }
    ensures each { All (λ s. (s.board ≡ board.now.board) × (s.has_value ≡ false)) seats.new }
    ensures all { length seats.new ≡ length seats.old }
{
    for_each_mut(
        rt,
        seats,
        threads,
        &|_place: usize, seat: &mut TurnSeat<Notes>|
            requires { (seat.old.board ≡ board.now.board) × (seat.old.has_value ≡ false) }
            ensures { (seat.new.board ≡ board.entry.now.board) × (seat.new.has_value ≡ false) }
        { add_all(rt, board, seat, end) },
    );
}

// What a board ends with whose seats added the numbers below `end`, on this many threads.
fn crowd<R: Threads + Wait + Sync>(
    rt: &R,
    alloc: Global,
    seats: u32,
    threads: usize,
    end: u64,
) -> Option<Notes>
    requires { (1 ≤ seats) × (seats ≤ 64) × (0 < threads) }
{
    let (board, mut seats) = begun(alloc, seats)?;
    add_together(rt, &board, seats.as_mut_slice(), threads, end);
    Some(board.close(seats))
}

// Each of the seats added the numbers below `end` in their order, and no number is left over.
fn is_whole(notes: &Notes, seats: usize, end: u64) -> bool {
    let mut next = [0u64; 65];
    for (maker, number) in notes.items.iter() {
        let Some(expected) = next.get_mut(*maker as usize) else {
            return false;
        };
        if *number != *expected {
            return false;
        }
        *expected = number.wrapping_add(1);
    }
    next.iter().filter(|count| **count == end).count() == seats && next[0] == 0
}

#[test]
fn two_threads_add_in_their_order(rt: HostRuntime) -> Result<(), Fail> {
    let notes = crowd(&rt, rt.alloc(), 2, 2, 100).ok_or(AllocError)?;
    assert_eq!(rt; notes.items.len(), 200);
    assert!(rt; is_whole(&notes, 2, 100));
    Ok(())
}

#[test]
fn sixty_four_seats_share_eight_threads(rt: HostRuntime) -> Result<(), Fail> {
    let notes = crowd(&rt, rt.alloc(), 64, 8, 1000).ok_or(AllocError)?;
    assert_eq!(rt; notes.items.len(), 64_000);
    assert!(rt; is_whole(&notes, 64, 1000));
    Ok(())
}
