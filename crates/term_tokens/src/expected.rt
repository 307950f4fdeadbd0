// What may stand next.

use crate::token::Closing;

/// Which tokens may stand next.
#[derive(Clone, Copy, Drop)]
pub struct Expected {
    /// The first token of a term.
    pub term: bool,
    /// A keyword's key.
    pub key: bool,
    /// This closing bracket.
    pub closing: Option<Closing>,
    /// A comma.
    pub comma: bool,
    /// `=>`.
    pub arrow: bool,
    /// Whether the term is the text's own.
    pub outermost: bool,
}
