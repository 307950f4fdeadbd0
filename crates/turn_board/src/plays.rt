//! The rule of the board, and what each kind of step tells.
ghost use Rattle.turn_board.specs.Histories.{account_of};
ghost use Rattle.turn_board.specs.Sights.{blank, spent, splitter, split_off, joined};
ghost use Rattle.turn_board.specs.Turn.{TurnRule, opens, draws, looks, counts, passes};

use crate::counted::Counted;
use crate::sight::Sight;
use atomic_table::{Join, Play, Split, TableRule};
use std::marker::PhantomData;

// The rule of the board, whose key is the number of seats.
pub(crate) struct Turns<V> {
    of: PhantomData<V>,
}

impl<V: Counted> TableRule<Option<V>, Sight<V::Opening, V::Event>, u64> for Turns<V> {
    ghost holds = { TurnRule (account_of V.opening V.history V.maker) };

    ghost first = { blank };
}

// Open: the first seat takes the slot for the value that it is about to put there.
pub(crate) struct Opens<V> {
    of: PhantomData<V>,
}

impl<V: Counted> Play<Option<V>, Sight<V::Opening, V::Event>> for Opens<V> {
    ghost then = { opens (account_of V.opening V.history V.maker) };
}

// Draw a ticket, where the word is exchanged.
pub(crate) struct Draws<V> {
    of: PhantomData<V>,
}

impl<V: Counted> Play<Option<V>, Sight<V::Opening, V::Event>> for Draws<V> {
    ghost then = { draws };
}

// Look whose turn it is.
pub(crate) struct Looks<V> {
    of: PhantomData<V>,
}

impl<V: Counted> Play<Option<V>, Sight<V::Opening, V::Event>> for Looks<V> {
    ghost then = { looks (account_of V.opening V.history V.maker) };
}

// Count an event.
pub(crate) struct Counts<V> {
    of: PhantomData<V>,
}

impl<V: Counted> Play<Option<V>, Sight<V::Opening, V::Event>> for Counts<V> {
    ghost then = { counts V.history };
}

// Pass the turn on.
pub(crate) struct Passes<V> {
    of: PhantomData<V>,
}

impl<V: Counted> Play<Option<V>, Sight<V::Opening, V::Event>> for Passes<V> {
    ghost then = { passes };
}

// Split a seat off the first.
pub(crate) struct Cut;

impl<O, E> Split<Sight<O, E>> for Cut {
    ghost left = { splitter };

    ghost right = { split_off };
}

// Take in a seat.
pub(crate) struct Glue;

impl<O, E> Join<Sight<O, E>> for Glue {
    ghost both = { joined };

    ghost spent = { spent };
}
