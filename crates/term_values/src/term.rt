// The values that a text can spell.

use mx_base::{Bytes, Text};
use sqlite_items::Items;

/// Terms in a row.
pub type Terms = Items<Term>;

/// Keys and their values, in the order in which they are written.
pub type Pairs = Items<(Term, Term)>;

/// A literal Elixir term, as plain data.
#[derive(Drop)]
pub enum Term {
    /// An atom, without its colon.
    Atom(Text),
    /// An integer.
    Int(i128),
    /// A string's bytes, without its quotes.
    Str(Bytes),
    /// The elements of a list. A keyword is a tuple of two.
    List(Terms),
    /// The elements of a tuple. Keywords at its end are one last element, a list of pairs.
    Tuple(Terms),
    /// The keys of a map and their values. The keys differ.
    Map(Pairs),
}
