// What an expression is worth.
ghost use Rattle.std.specs.Prelude.{◌≡◌};
ghost use Rattle.unit_compile.specs.Complaints.{said_by};
ghost use Rattle.unit_compile.specs.Values.{value_in};
ghost use Rattle.unit_compile.specs.Views.{or_overflow, scope_in};

use crate::complaint::Complaint;
use crate::scope::Scope;
use unit_lang::Expression;

/// The value of an expression, or the first that is wrong with it, from the left.
pub(crate) fn value_in<'a>(
    scope: &Scope<'a>,
    expression: &'a Expression,
) -> Result<i64, Complaint<'a>>
    ensures { said_by result ≡ value_in (scope_in scope.now) expression.now }
{
    match expression {
        Expression::Number(number) => Ok(*number),
        Expression::Name(name) => scope.value(name),
        Expression::Reference { unit, name } => scope.reference(unit, name),
        Expression::Add(left, right) => {
            let one = value_in(scope, left.get())?;
            let other = value_in(scope, right.get())?;
            within(one.checked_add(other))
        }
        Expression::Subtract(left, right) => {
            let one = value_in(scope, left.get())?;
            let other = value_in(scope, right.get())?;
            within(one.checked_sub(other))
        }
        Expression::Multiply(left, right) => {
            let one = value_in(scope, left.get())?;
            let other = value_in(scope, right.get())?;
            within(one.checked_mul(other))
        }
        Expression::Negate(inner) => within(value_in(scope, inner.get())?.checked_neg()),
    }
}

// The value of an operation, where it has one.
fn within<'a>(value: Option<i64>) -> Result<i64, Complaint<'a>>
    ensures { said_by result ≡ or_overflow value }
{
    match value {
        Some(value) => Ok(value),
        None => Err(Complaint::Overflow),
    }
}
