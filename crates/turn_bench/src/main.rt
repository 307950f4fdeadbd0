//! The program `turn_bench`: threads take turns with one value, and the number of turns is printed.
//!
//! Its words are a number of threads, from 1 to 64, and how many turns each of them takes. Without
//! words it is 2 threads with 1,000 turns each.
#![tactic(auto)]

ghost use Rattle.std.specs.Prelude.{◌≡◌, ◌≤◌, length, false, IfSome};
ghost use Rattle.std.specs.List.{All};

use std::alloc::{AllocError, Global};
use std::sync::Wait;
use std::thread::{Threads, for_each_mut};
use std::{env, io};
use turn_board::{Counted, TurnBoard, TurnSeat};

// The seats that had a turn, in the order of the turns.
#[derive(Drop)]
struct Turns {
    makers: Vec<u32>,
}

impl Counted for Turns {
    type Opening = ();

    type Event = u32;

    ghost opening = { λ _. tt };

    ghost history = { λ t. t.makers.items };

    ghost maker = { λ e. e };

    fn is_counted(&self) {
        let _length = self.makers.len();
    }
}

// One turn, which is written down where there is memory.
fn take_turn<R: Wait>(rt: &R, board: &TurnBoard<Turns>, seat: &mut TurnSeat<Turns>)
    requires { (seat.old.board ≡ board.now.board) × (seat.old.has_value ≡ false) }
    ensures { (seat.new.board ≡ seat.old.board) × (seat.new.has_value ≡ false) }
{
    let mut turns = board.enter(rt, seat);
    match turns.makers.push(seat.number()) {
        Ok(()) => board.leave(seat, turns, true),
        Err(_) => board.leave(seat, turns, false),
    }
}

fn take_turns<R: Wait>(rt: &R, board: &TurnBoard<Turns>, seat: &mut TurnSeat<Turns>, count: u64)
    requires { (seat.old.board ≡ board.now.board) × (seat.old.has_value ≡ false) }
    ensures { (seat.new.board ≡ seat.old.board) × (seat.new.has_value ≡ false) }
{
    for _turn in 0..count {
        take_turn(rt, board, seat);
    }
}

// A board without a turn so far, with its seats.
fn begun(alloc: Global, seats: u32) -> Option<(TurnBoard<Turns>, Vec<TurnSeat<Turns>>)>
    requires { (1 ≤ seats) × (seats ≤ 64) }
    ensures all { IfSome result (λ t. length t.1.items ≡ t.0.seats) }
    ensures each { IfSome result (λ t. All (λ s. (s.board ≡ t.0.board) × (s.has_value ≡ false))
        t.1.items) }
{
    let none = Turns {
        makers: Vec::new(alloc),
    };
    let Ok((board, dealt)) = TurnBoard::begin(alloc, none, seats) else {
        return None;
    };
    Some((board, dealt))
}

// Each seat takes its turns in a thread of its own.
fn take_together<R: Threads + Wait + Sync>(
    rt: &R,
    board: &TurnBoard<Turns>,
    seats: &mut [TurnSeat<Turns>],
    count: u64,
)
    requires each { All (λ s. (s.board ≡ board.now.board) × (s.has_value ≡ false)) seats.old }
    ensures each { All (λ s. (s.board ≡ board.now.board) × (s.has_value ≡ false)) seats.new }
    ensures all { length seats.new ≡ length seats.old }
{
    for_each_mut(
        rt,
        seats,
        64,
        &|_place: usize, seat: &mut TurnSeat<Turns>|
            requires { (seat.old.board ≡ board.now.board) × (seat.old.has_value ≡ false) }
            ensures { (seat.new.board ≡ board.entry.now.board) × (seat.new.has_value ≡ false) }
        { take_turns(rt, board, seat, count) },
    );
}

// How many turns there were, or none where there was no memory.
fn turns_of<R: Threads + Wait + Sync>(
    rt: &R,
    alloc: Global,
    threads: u32,
    count: u64,
) -> Option<usize>
    requires { (1 ≤ threads) × (threads ≤ 64) }
{
    let (board, mut seats) = begun(alloc, threads)?;
    take_together(rt, &board, seats.as_mut_slice(), count);
    Some(board.close(seats).makers.len())
}

// The number that a word says, or this one where it says none.
fn number_of(word: Option<String>, default: u64) -> u64 {
    word.and_then(|word| word.parse().ok()).unwrap_or(default)
}

fn main(rt: HostRuntime) -> io::Result<()> {
    let mut words = env::args(&rt)?.skip(1);
    let threads = number_of(words.next(), 2).clamp(1, 64) as u32;
    let count = number_of(words.next(), 1_000);
    let turns = turns_of(&rt, rt.alloc(), threads, count).ok_or(AllocError)?;
    println!(rt; "{turns}")
}
