//! Readers of expressions, by levels. They are called as deep as an expression is high.
ghost use Rattle.std.specs.Prelude.{◌≡◌, ◌≤◌, ◌<◌, ◌+◌, List, ℕ, length, max, IfOk, IfErr, IfSome, IfNone};
ghost use Rattle.first_form.specs.Tokens.{Begins};
ghost use Rattle.first_form.specs.Expression.{expression_of, Negated, Combined, Enclosed};
ghost use Rattle.first_form.specs.Grammar.{sign_of, level_of};
ghost use Rattle.first_form.specs.Height.{height};
ghost use Rattle.first_form.specs.Readings.{level_number, Reads, IsThere};
ghost use Rattle.first_form.specs.declared.expression.Operator.{Operator as Operators};

use crate::expression::{Expression, Operator};
use crate::first_fault::FirstFault;
use crate::lexing::{after, next_token, number};
use std::alloc::Global;

/// What a chain of operands is made by.
#[derive(Clone, Copy)]
enum Level {
    /// `+` and `-`
    Sum,
    /// `*`
    Product,
}

/// An expression that was read, how high it is, and the bytes behind it.
#[derive(Drop)]
struct Found<'a> {
    expression: Expression,
    height: u32,
    rest: &'a [u8],
}

/// How high an expression may be.
const MAX_HEIGHT: u32 = 200;

/// The operator of the level that the token is.
fn operator_of(level: Level, token: &[u8]) -> Option<Operator>
    ensures some { IfSome result (λ op. token.now ≡ sign_of op) }
    ensures level { IfSome result (λ op. level_of op ≡ level_number level) }
    ensures none { IfNone result ((op : Operators) → level_of op ≡ level_number level → token.now ≡ sign_of op → ⊥) }
{
    match level {
        Level::Sum => {
            if token == b"+".as_slice() {
                Some(Operator::Add)
            } else if token == b"-".as_slice() {
                Some(Operator::Subtract)
            } else {
                None
            }
        }
        Level::Product => {
            if token == b"*".as_slice() {
                Some(Operator::Multiply)
            } else {
                None
            }
        }
    }
}

/// The operator of the level that is the first token, and what stands behind it.
fn operator_at<'a>(level: Level, bytes: &'a [u8]) -> Option<(Operator, &'a [u8])>
    ensures some { IfSome result (λ x. Begins bytes.now (sign_of x.0) x.1.now) }
    ensures level { IfSome result (λ x. level_of x.0 ≡ level_number level) }
    ensures shorter { IfSome result (λ x. length x.1.now < length bytes.now) }
    ensures none { IfNone result ((op : Operators) (rest : List ℕ) → level_of op ≡ level_number level → Begins bytes.now (sign_of op) rest → ⊥) }
{
    let Some((token, rest)) = next_token(bytes) else {
        return None;
    };
    match operator_of(level, token) {
        Some(operator) => Some((operator, rest)),
        None => None,
    }
}

/// `-` and its operand.
fn negated(alloc: Global, operand: Expression) -> Result<Expression, FirstFault>
    ensures ok { IfOk result (λ e. expression_of e ≡ Negated (expression_of operand)) }
    ensures err { IfErr result (λ e. e ≡ FirstFault.Memory) }
{
    Ok(Expression::Negate(Box::new(alloc, operand)?))
}

/// An expression in parentheses.
fn enclosed(alloc: Global, inside: Expression) -> Result<Expression, FirstFault>
    ensures ok { IfOk result (λ e. expression_of e ≡ Enclosed (expression_of inside)) }
    ensures err { IfErr result (λ e. e ≡ FirstFault.Memory) }
{
    Ok(Expression::Parentheses(Box::new(alloc, inside)?))
}

/// An operator between its operands.
fn combined(
    alloc: Global,
    operator: Operator,
    left: Expression,
    right: Expression,
) -> Result<Expression, FirstFault>
    ensures ok { IfOk result (λ e. expression_of e ≡ Combined operator (expression_of left) (expression_of right)) }
    ensures err { IfErr result (λ e. e ≡ FirstFault.Memory) }
{
    let left = Box::new(alloc, left)?;
    let right = Box::new(alloc, right)?;
    Ok(Expression::Binary(operator, left, right))
}

/// The operand that is next: `-` and an operand, a number, or an expression in parentheses.
#[cycle(expression)]
fn unary_at<'a>(alloc: Global, bytes: &'a [u8], limit: u32) -> Result<Found<'a>, FirstFault>
    ensures ok { IfOk result (λ f. Reads 2 bytes.now (expression_of f.expression) f.rest.now) }
    ensures height { IfOk result (λ f. f.height ≡ height (expression_of f.expression)) }
    ensures low { IfOk result (λ f. f.height ≤ limit) }
    ensures shorter { IfOk result (λ f. length f.rest.now < length bytes.now) }
    ensures only { IsThere 2 limit bytes.now → IfErr result (λ e. e ≡ FirstFault.Memory) }
{
    if limit == 0 {
        return Err(FirstFault::BadText);
    }
    let Some((token, rest)) = next_token(bytes) else {
        return Err(FirstFault::BadText);
    };
    if token == b"-".as_slice() {
        let inside = unary_at(alloc, rest, limit - 1)?;
        return Ok(Found {
            expression: negated(alloc, inside.expression)?,
            height: inside.height + 1,
            rest: inside.rest,
        });
    }
    if token == b"(".as_slice() {
        let inside = chain_at(alloc, Level::Sum, rest, limit - 1)?;
        let Some(rest) = after(inside.rest, b")") else {
            return Err(FirstFault::BadText);
        };
        return Ok(Found {
            expression: enclosed(alloc, inside.expression)?,
            height: inside.height + 1,
            rest,
        });
    }
    match number(token) {
        Some(n) => Ok(Found {
            expression: Expression::Number(n),
            height: 1,
            rest,
        }),
        None => Err(FirstFault::BadText),
    }
}

/// The operand of a chain of the level that is next.
#[cycle(expression)]
fn operand_at<'a>(
    alloc: Global,
    level: Level,
    bytes: &'a [u8],
    limit: u32,
) -> Result<Found<'a>, FirstFault>
    ensures ok { IfOk result (λ f. Reads (level_number level + 1) bytes.now (expression_of f.expression) f.rest.now) }
    ensures height { IfOk result (λ f. f.height ≡ height (expression_of f.expression)) }
    ensures low { IfOk result (λ f. f.height ≤ limit) }
    ensures shorter { IfOk result (λ f. length f.rest.now < length bytes.now) }
    ensures only { IsThere (level_number level + 1) limit bytes.now → IfErr result (λ e. e ≡ FirstFault.Memory) }
{
    match level {
        Level::Sum => chain_at(alloc, Level::Product, bytes, limit),
        Level::Product => unary_at(alloc, bytes, limit),
    }
}

/// The chain of the level that is next: operands with operators between them.
#[cycle(expression)]
fn chain_at<'a>(
    alloc: Global,
    level: Level,
    bytes: &'a [u8],
    limit: u32,
) -> Result<Found<'a>, FirstFault>
    ensures ok { IfOk result (λ f. Reads (level_number level) bytes.now (expression_of f.expression) f.rest.now) }
    ensures height { IfOk result (λ f. f.height ≡ height (expression_of f.expression)) }
    ensures low { IfOk result (λ f. f.height ≤ limit) }
    ensures shorter { IfOk result (λ f. length f.rest.now < length bytes.now) }
    ensures only { IsThere (level_number level) limit bytes.now → IfErr result (λ e. e ≡ FirstFault.Memory) }
{
    let mut left = operand_at(alloc, level, bytes, limit)?;
    while let Some((operator, rest)) = operator_at(level, left.rest) {
        if left.height >= limit {
            return Err(FirstFault::BadText);
        }
        let right = operand_at(alloc, level, rest, limit - 1)?;
        left = Found {
            height: left.height.max(right.height) + 1,
            expression: combined(alloc, operator, left.expression, right.expression)?,
            rest: right.rest,
        };
    }
    Ok(left)
}

/// The expression that is next, at most 200 nodes high, and what stands behind it.
pub(crate) fn expression_at<'a>(
    alloc: Global,
    bytes: &'a [u8],
) -> Result<(Expression, &'a [u8]), FirstFault>
    ensures ok { IfOk result (λ x. Reads 0 bytes.now (expression_of x.0) x.1.now) }
    ensures low { IfOk result (λ x. height (expression_of x.0) ≤ 200) }
    ensures shorter { IfOk result (λ x. length x.1.now < length bytes.now) }
    ensures only { IsThere 0 200 bytes.now → IfErr result (λ e. e ≡ FirstFault.Memory) }
{
    let found = chain_at(alloc, Level::Sum, bytes, MAX_HEIGHT)?;
    Ok((found.expression, found.rest))
}
