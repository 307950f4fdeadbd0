// What a unit file says.

use mx_base::{AppName, Bytes, ListOf, Text};
use sqlite_items::Boxed;

/// The lines of a unit, in their order.
pub type Lines = ListOf<Line>;

/// A unit file: its name, and the lines after that name which aren't blank.
#[derive(Drop)]
pub struct Unit {
    pub name: Text,
    /// The number of the `unit` line, from 1.
    pub line: u32,
    pub lines: Lines,
}

/// A line that isn't blank, with its number from 1.
#[derive(Drop)]
pub struct Line {
    pub number: u32,
    pub statement: Statement,
}

/// What a line says.
#[derive(Drop)]
pub enum Statement {
    /// `use APP.UNIT`: the exports of another app's unit.
    Use { app: AppName, unit: Text },
    /// `let NAME = EXPR`: a value.
    Let { name: Text, value: Expression },
    /// `export NAME`: a value that others may use.
    Export { name: Text },
    /// `warn TEXT`: a warning.
    Warn { text: Bytes },
}

/// An expression. Parentheses aren't kept: they have shaped the tree.
#[derive(Drop)]
pub enum Expression {
    /// Decimal digits, at most 2^63 - 1.
    Number(i64),
    /// A name of this unit.
    Name(Text),
    /// `UNIT.NAME`: a name that another unit exports.
    Reference { unit: Text, name: Text },
    /// The left side plus the right side.
    Add(Boxed<Expression>, Boxed<Expression>),
    /// The left side minus the right side.
    Subtract(Boxed<Expression>, Boxed<Expression>),
    /// The left side times the right side.
    Multiply(Boxed<Expression>, Boxed<Expression>),
    /// What is negated.
    Negate(Boxed<Expression>),
}
