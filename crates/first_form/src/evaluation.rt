//! The evaluation of expressions of the first form, modulo 2^32.
ghost use Rattle.std.specs.Prelude.{◌≡◌};
ghost use Rattle.first_form.specs.Expression.{expression_of};
ghost use Rattle.first_form.specs.Meaning.{value};

use crate::expression::{Expression, Operator};

/// The value of the expression modulo 2^32 (C89, 3.3, with arithmetic that wraps round).
pub fn value(expression: &Expression) -> u32
    ensures { result ≡ value (expression_of expression.now) }
{
    match expression {
        Expression::Number(n) => *n,
        Expression::Negate(e) => value(e).wrapping_neg(),
        Expression::Binary(Operator::Add, a, b) => value(a).wrapping_add(value(b)),
        Expression::Binary(Operator::Subtract, a, b) => value(a).wrapping_sub(value(b)),
        Expression::Binary(Operator::Multiply, a, b) => value(a).wrapping_mul(value(b)),
        Expression::Parentheses(e) => value(e),
    }
}
