// The kinds of brackets.

/// What a pair of brackets encloses.
#[derive(Clone, Copy, Drop)]
pub enum Bracket {
    /// `[` and `]`.
    List,
    /// `{` and `}`.
    Tuple,
    /// `%{` and `}`.
    Map,
}
