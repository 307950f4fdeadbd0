// What the reader of a line knows between two tokens.
ghost use Rattle.std.specs.Prelude.{◌≡◌, Some, IfOk};
ghost use Rattle.std.specs.Option.{option_copied};
ghost use Rattle.unit_lang.specs.Gives.{Gives};
ghost use Rattle.unit_lang.specs.Machine.{at_start, at_use, at_let, at_named, at_export, at_factor, at_operator, at_settled, after_factor, step, settled, is_minus, whole, whole_settled, finished, depth};
ghost use Rattle.unit_lang.specs.declared.token.Token.TheVariants.{Close, Minus, Open, Word};

use crate::bytes::is_name;
use crate::error::UnitCause;
use crate::level::{Hole, Level, Sum, times};
use crate::token::Token;
use crate::unit::{Expression, Statement};
use crate::words::{boxed_operand, used};
use mx_base::{Stack, Text};
use sqlite_items::Boxed;
use std::alloc::{AllocError, Global};

/// What the reader of a line knows between two tokens.
#[derive(Drop)]
pub(crate) enum State {
    /// At the beginning of the line.
    Start,
    /// After `use`.
    Use,
    /// After `let`.
    Let,
    /// After `let NAME`.
    Named {
        name: Text,
    },
    /// After `export`.
    Export,
    /// Where a factor is wanted.
    Factor {
        name: Text,
        level: Level,
        holes: Stack<Hole>,
    },
    /// After a factor. The minus signs before it are still open.
    Operator {
        name: Text,
        level: Level,
        factor: Boxed<Expression>,
        holes: Stack<Hole>,
    },
    /// After a whole `use` or `export` line.
    Done {
        statement: Boxed<Statement>,
    },
}

impl State {
    /// The state after one more token, or `BadLine` where it may not stand here.
    pub(crate) fn step(self, alloc: Global, token: Token) -> Result<State, UnitCause>
        ensures { Gives result (step self token) }
    {
        match self {
            State::Start => at_start(token),
            State::Use => at_use(alloc, token),
            State::Let => at_let(token),
            State::Named { name } => at_named(alloc, name, token),
            State::Export => at_export(alloc, token),
            State::Factor { name, level, holes } => at_factor(alloc, name, level, holes, token),
            State::Operator {
                name,
                level,
                factor,
                holes,
            } => at_operator(alloc, name, level, factor, holes, token),
            State::Done { .. } => Err(UnitCause::BadLine),
        }
    }

    /// How many parentheses and minus signs are open.
    pub(crate) fn depth(&self) -> usize
        ensures { result ≡ depth self.now }
    {
        match self {
            State::Factor { holes, .. } => holes.len(),
            State::Operator { holes, .. } => holes.len(),
            _ => 0,
        }
    }

    /// The statement that the line's tokens make, or `BadLine` where they make none.
    pub(crate) fn finished(self, alloc: Global) -> Result<Statement, UnitCause>
        ensures { Gives result (finished self) }
    {
        match self {
            State::Done { statement } => Ok(statement.into_inner()),
            State::Operator {
                name,
                level,
                factor,
                holes,
            } => Ok(Statement::Let {
                name,
                value: whole(alloc, level, factor, holes)?.into_inner(),
            }),
            state => {
                drop(state);
                Err(UnitCause::BadLine)
            }
        }
    }
}

/// The first token of a line.
fn at_start(token: Token) -> Result<State, UnitCause>
    ensures { Gives result (at_start token) }
{
    match token {
        Token::Word(word) => at_keyword(word.as_slice()),
        _ => Err(UnitCause::BadLine),
    }
}

/// The first word of a line.
fn at_keyword(word: &[u8]) -> Result<State, UnitCause>
    ensures { Gives result (at_start (Word word.now)) }
{
    if word == b"let".as_slice() {
        Ok(State::Let)
    } else if word == b"use".as_slice() {
        Ok(State::Use)
    } else if word == b"export".as_slice() {
        Ok(State::Export)
    } else {
        Err(UnitCause::BadLine)
    }
}

/// A token after `use`.
fn at_use(alloc: Global, token: Token) -> Result<State, UnitCause>
    ensures { Gives result (at_use token) }
{
    match token {
        Token::Word(word) => used(alloc, word.as_slice()),
        _ => Err(UnitCause::BadLine),
    }
}

/// A token after `let`.
fn at_let(token: Token) -> Result<State, UnitCause>
    ensures { Gives result (at_let token) }
{
    match token {
        Token::Word(name) if is_name(name.as_slice()) => Ok(State::Named { name }),
        _ => Err(UnitCause::BadLine),
    }
}

/// A token after a value's name.
fn at_named(alloc: Global, name: Text, token: Token) -> Result<State, UnitCause>
    ensures { Gives result (at_named name token) }
{
    match token {
        Token::Equals => Ok(State::Factor {
            name,
            level: Level::fresh(),
            holes: Stack::new(alloc),
        }),
        _ => Err(UnitCause::BadLine),
    }
}

/// A token after `export`.
fn at_export(alloc: Global, token: Token) -> Result<State, UnitCause>
    ensures { Gives result (at_export token) }
{
    match token {
        Token::Word(name) if is_name(name.as_slice()) => Ok(State::Done {
            statement: Boxed::new(alloc, Statement::Export { name })?,
        }),
        _ => Err(UnitCause::BadLine),
    }
}

/// A token where a factor is wanted.
fn at_factor(
    alloc: Global,
    name: Text,
    level: Level,
    holes: Stack<Hole>,
    token: Token,
) -> Result<State, UnitCause>
    ensures { Gives result (at_factor name level holes token) }
{
    match token {
        Token::Minus => after_minus(name, level, holes),
        Token::Open => after_open(name, level, holes),
        Token::Word(word) => after_word(alloc, name, level, holes, word),
        _ => {
            drop(level);
            Err(UnitCause::BadLine)
        }
    }
}

/// A minus sign opens where a factor is wanted.
fn after_minus(name: Text, level: Level, mut holes: Stack<Hole>) -> Result<State, UnitCause>
    ensures { Gives result (at_factor name level holes Minus) }
{
    match holes.push(Hole::Minus) {
        Ok(()) => Ok(State::Factor { name, level, holes }),
        Err(_) => {
            drop(level);
            Err(UnitCause::OutOfMemory)
        }
    }
}

/// A parenthesis opens where a factor is wanted.
fn after_open(name: Text, level: Level, mut holes: Stack<Hole>) -> Result<State, UnitCause>
    ensures { Gives result (at_factor name level holes Open) }
{
    holes.push(Hole::Parenthesis(level))?;
    Ok(State::Factor {
        name,
        level: Level::fresh(),
        holes,
    })
}

/// A word stands where a factor is wanted.
fn after_word(
    alloc: Global,
    name: Text,
    level: Level,
    holes: Stack<Hole>,
    word: Text,
) -> Result<State, UnitCause>
    ensures { Gives result (at_factor name level holes (Word word)) }
{
    match boxed_operand(alloc, word) {
        Ok(factor) => Ok(State::Operator {
            name,
            level,
            factor,
            holes,
        }),
        Err(cause) => {
            drop(level);
            Err(cause)
        }
    }
}

/// A token after a factor.
fn at_operator(
    alloc: Global,
    name: Text,
    level: Level,
    factor: Boxed<Expression>,
    mut holes: Stack<Hole>,
    token: Token,
) -> Result<State, UnitCause>
    ensures { Gives result (at_operator name level factor holes token) }
{
    match settled(alloc, factor, &mut holes) {
        Ok(factor) => at_settled(alloc, name, level, factor, holes, token),
        Err(_) => Err(UnitCause::OutOfMemory),
    }
}

/// A token after a factor whose minus signs are taken in.
fn at_settled(
    alloc: Global,
    name: Text,
    level: Level,
    factor: Boxed<Expression>,
    holes: Stack<Hole>,
    token: Token,
) -> Result<State, UnitCause>
    ensures { Gives result (at_settled name level (factor, holes) token) }
{
    let Level { sum, product } = level;
    let term = times(alloc, product, factor)?;
    after_factor(alloc, name, sum, term, holes, token)
}

/// A token after a term.
fn after_factor(
    alloc: Global,
    name: Text,
    sum: Sum,
    term: Boxed<Expression>,
    mut holes: Stack<Hole>,
    token: Token,
) -> Result<State, UnitCause>
    ensures { Gives result (after_factor name sum term holes token) }
{
    let level = match token {
        Token::Plus => Level {
            sum: Sum::Plus(sum.joined(alloc, term)?),
            product: None,
        },
        Token::Minus => Level {
            sum: Sum::Minus(sum.joined(alloc, term)?),
            product: None,
        },
        Token::Star => Level {
            sum,
            product: Some(term),
        },
        Token::Close => return after_close(alloc, name, sum, term, holes),
        _ => {
            drop(sum);
            return Err(UnitCause::BadLine);
        }
    };
    Ok(State::Factor { name, level, holes })
}

/// A parenthesis closes after a term.
fn after_close(
    alloc: Global,
    name: Text,
    sum: Sum,
    term: Boxed<Expression>,
    mut holes: Stack<Hole>,
) -> Result<State, UnitCause>
    ensures { Gives result (after_factor name sum term holes Close) }
{
    match holes.pop() {
        Some(Hole::Parenthesis(level)) => Ok(State::Operator {
            name,
            level,
            factor: sum.joined(alloc, term)?,
            holes,
        }),
        hole => {
            drop(hole);
            drop(sum);
            Err(UnitCause::BadLine)
        }
    }
}

/// The whole expression, where no parenthesis is open.
fn whole(
    alloc: Global,
    level: Level,
    factor: Boxed<Expression>,
    mut holes: Stack<Hole>,
) -> Result<Boxed<Expression>, UnitCause>
    ensures { Gives result (whole level factor holes) }
{
    match settled(alloc, factor, &mut holes) {
        Ok(factor) => whole_settled(alloc, level, factor, holes),
        Err(_) => Err(UnitCause::OutOfMemory),
    }
}

/// The whole expression after a factor whose minus signs are taken in.
fn whole_settled(
    alloc: Global,
    level: Level,
    factor: Boxed<Expression>,
    holes: Stack<Hole>,
) -> Result<Boxed<Expression>, UnitCause>
    ensures { Gives result (whole_settled level (factor, holes)) }
{
    if !holes.is_empty() {
        return Err(UnitCause::BadLine);
    }
    let Level { sum, product } = level;
    let term = times(alloc, product, factor)?;
    Ok(sum.joined(alloc, term)?)
}

/// The factor with the minus signs before it, which are taken off.
fn settled(
    alloc: Global,
    factor: Boxed<Expression>,
    holes: &mut Stack<Hole>,
) -> Result<Boxed<Expression>, AllocError>
    ensures { IfOk result (λ e. (e, holes.new) ≡ settled factor holes.old) }
{
    let mut factor = factor;
    while is_minus(holes.top()) {
        holes.pop();
        factor = Boxed::new(alloc, Expression::Negate(factor))?;
    }
    Ok(factor)
}

/// Whether a minus sign is open, with no parenthesis after it.
fn is_minus(hole: Option<&Hole>) -> bool
    ensures { result ≡ is_minus (option_copied hole.entry) }
{
    matches!(hole, Some(Hole::Minus))
}
