// Cases of unit files.

use case_texts::{Fault, push_after, refused, say};
use mx_base::Text;
use std::alloc::Global;
use unit_lang::{Expression, Statement, Unit, UnitCause, parse_unit};

/// More parts than any line has.
const MOST_PARTS: usize = 8192;

/// A text: the unit that it is, a line at a time.
pub(crate) fn unit_case(alloc: Global, out: &mut String, texts: &[Vec<u8>]) -> Result<(), Fault> {
    let [text] = texts else {
        return Err(Fault::Form);
    };
    match parse_unit(alloc, text.as_slice()) {
        Ok(unit) => push_unit(alloc, out, &unit),
        Err(error) => refused(out, u64::from(error.line), unit_cause(error.cause)),
    }
}

fn push_unit(alloc: Global, out: &mut String, unit: &Unit) -> Result<(), Fault> {
    let line = unit.line;
    write!(out, "ok {line} unit ")?;
    push_name(out, &unit.name)?;
    for said in unit.lines.as_slice() {
        let number = said.number;
        write!(out, ";{number} ")?;
        push_statement(alloc, out, &said.statement)?;
    }
    Ok(())
}

fn push_statement(alloc: Global, out: &mut String, statement: &Statement) -> Result<(), Fault> {
    match statement {
        Statement::Use { app, unit } => {
            say(out, "use ")?;
            say(out, app.as_str())?;
            say(out, ".")?;
            push_name(out, unit)
        }
        Statement::Let { name, value } => {
            say(out, "let ")?;
            push_name(out, name)?;
            say(out, " =")?;
            push_expression(alloc, out, value)
        }
        Statement::Export { name } => {
            say(out, "export ")?;
            push_name(out, name)
        }
        Statement::Warn { text } => push_after(alloc, out, "warn ", text.as_slice()),
    }
}

fn push_name(out: &mut String, name: &Text) -> Result<(), Fault> {
    for byte in name.as_slice() {
        out.push(char::from(*byte))?;
    }
    Ok(())
}

/// Each operation before its sides, a space before each part.
fn push_expression(alloc: Global, out: &mut String, expression: &Expression) -> Result<(), Fault> {
    let mut parts = Vec::new(alloc);
    parts.push(expression)?;
    for _ in 0..MOST_PARTS {
        match parts.pop() {
            Some(part) => push_part(out, &mut parts, part)?,
            None => break,
        }
    }
    Ok(())
}

/// One part, whose sides come after it.
fn push_part<'a>(
    out: &mut String,
    parts: &mut Vec<&'a Expression>,
    part: &'a Expression,
) -> Result<(), Fault> {
    say(out, " ")?;
    match part {
        Expression::Number(number) => {
            write!(out, "{number}")?;
            Ok(())
        }
        Expression::Name(name) => push_name(out, name),
        Expression::Reference { unit, name } => {
            push_name(out, unit)?;
            say(out, ".")?;
            push_name(out, name)
        }
        Expression::Add(left, right) => {
            push_sides(parts, left.get(), right.get())?;
            say(out, "+")
        }
        Expression::Subtract(left, right) => {
            push_sides(parts, left.get(), right.get())?;
            say(out, "-")
        }
        Expression::Multiply(left, right) => {
            push_sides(parts, left.get(), right.get())?;
            say(out, "*")
        }
        Expression::Negate(negated) => {
            parts.push(negated.get())?;
            say(out, "~")
        }
    }
}

fn push_sides<'a>(
    parts: &mut Vec<&'a Expression>,
    left: &'a Expression,
    right: &'a Expression,
) -> Result<(), Fault> {
    parts.push(right)?;
    parts.push(left)?;
    Ok(())
}

fn unit_cause(cause: UnitCause) -> &'static str {
    match cause {
        UnitCause::TooLong => "TooLong",
        UnitCause::NoUnit => "NoUnit",
        UnitCause::TooDeep => "TooDeep",
        UnitCause::NumberTooBig => "NumberTooBig",
        UnitCause::BadLine => "BadLine",
        UnitCause::OutOfMemory => "OutOfMemory",
    }
}
