// The operators of comparisons.

/// How a version is to stand to the operand of a comparison, by precedence.
#[derive(Clone, Copy)]
pub enum Operator {
    /// `==`, or no operator.
    Equal,
    /// `!=`
    NotEqual,
    /// `>`
    Greater,
    /// `>=`
    GreaterOrEqual,
    /// `<`
    Less,
    /// `<=`
    LessOrEqual,
    /// `~>`: at least the operand, with its major number, and with its minor number too where the patch
    /// is written.
    Compatible,
}
