// What was read of an expression that isn't whole yet.
ghost use Rattle.std.specs.Prelude.{◌≡◌, IfOk};
ghost use Rattle.unit_lang.specs.Machine.{fresh, joined, times};

use crate::unit::Expression;
use sqlite_items::Boxed;
use std::alloc::{AllocError, Global};

/// The terms that are whole, with the sign after them.
#[derive(Drop)]
pub(crate) enum Sum {
    Nothing,
    Plus(Boxed<Expression>),
    Minus(Boxed<Expression>),
}

/// What stands before a factor, up to the parenthesis around it.
#[derive(Drop)]
pub(crate) struct Level {
    pub sum: Sum,
    /// The factors since then, with `*` after them.
    pub product: Option<Boxed<Expression>>,
}

/// What is open around a factor.
#[derive(Drop)]
pub(crate) enum Hole {
    /// A parenthesis, and what stands before it.
    Parenthesis(Level),
    /// A minus sign that a factor follows.
    Minus,
}

impl Level {
    /// Where nothing was read yet.
    pub(crate) fn fresh() -> Level
        ensures { result ≡ fresh }
    {
        Level {
            sum: Sum::Nothing,
            product: None,
        }
    }
}

impl Sum {
    /// The sum with a term after it.
    pub(crate) fn joined(
        self,
        alloc: Global,
        term: Boxed<Expression>,
    ) -> Result<Boxed<Expression>, AllocError>
        ensures { IfOk result (λ e. e ≡ joined self term) }
    {
        match self {
            Sum::Nothing => Ok(term),
            Sum::Plus(left) => Boxed::new(alloc, Expression::Add(left, term)),
            Sum::Minus(left) => Boxed::new(alloc, Expression::Subtract(left, term)),
        }
    }
}

/// A product with a factor after it.
pub(crate) fn times(
    alloc: Global,
    product: Option<Boxed<Expression>>,
    factor: Boxed<Expression>,
) -> Result<Boxed<Expression>, AllocError>
    ensures { IfOk result (λ e. e ≡ times product factor) }
{
    match product {
        None => Ok(factor),
        Some(left) => Boxed::new(alloc, Expression::Multiply(left, factor)),
    }
}
