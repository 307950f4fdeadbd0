// The pieces that a text is made of.

use crate::bracket::Bracket;
use mx_base::{Bytes, Text};
use sqlite_items::Items;

/// A token: what stands between the blanks of a text.
#[derive(Drop)]
pub enum Token {
    /// `true`, `false`, `nil`; `:` and a name; `:` and a string.
    Atom(Text),
    /// An integer within 128 bits.
    Int(i128),
    /// `"`, what stands for the bytes, `"`.
    Str(Bytes),
    /// `~w(`, words, `)`, and perhaps a modifier.
    Words(WordKind, Items<Bytes>),
    /// A keyword's key: a name or a string, `:` and the blank byte after it.
    Key(Text),
    /// An opening bracket.
    Open(Bracket),
    /// A closing bracket: the one of a tuple closes a map too.
    Close(Closing),
    /// `,`.
    Comma,
    /// `=>`.
    Arrow,
}

/// What the words of a list are.
#[derive(Clone, Copy, Drop)]
pub enum WordKind {
    /// Without a modifier, and with `s`.
    Strings,
    /// With `a`.
    Atoms,
}

/// The closing brackets.
#[derive(Clone, Copy, Drop)]
pub enum Closing {
    /// `]`.
    Square,
    /// `}`.
    Curly,
}
