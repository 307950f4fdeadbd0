// The pieces that a line is made of.

use mx_base::Text;

/// A token of a line.
#[derive(Drop)]
pub(crate) enum Token {
    /// Letters, digits, `_` and `.` in a row: a word, a number or two names with a dot between them.
    Word(Text),
    /// `=`
    Equals,
    /// `+`
    Plus,
    /// `-`
    Minus,
    /// `*`
    Star,
    /// `(`
    Open,
    /// `)`
    Close,
}
