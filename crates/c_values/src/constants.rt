//! The value of an integer constant expression (C89 3.4).
ghost use Rattle.std.specs.Prelude.{◌≡◌, ◌<◌, ℕ, length, pos, if◌then◌else◌};
ghost use Rattle.objects.specs.Arithmetic.{signed_of};
ghost use Rattle.c_types.specs.Table.{Table, type_at};
ghost use Rattle.c_meaning.specs.CoreTrees.{IsIn, cores_of, seen};
ghost use Rattle.c_meaning.specs.Constants.{is_constant as constant, all_constant as constants, word as constant_word, first_word, second_word, third_word, converted_word, word_in, truth as truth_word, fold as meant};
ghost use Rattle.c_values.specs.Folding.{has_sign, folded, IsTyped};

use crate::kinds;
use c_meaning::{Conversion, CoreExpr, CoreKind};
use c_types::{TypeId, TypeTable};
use objects::{Value, binary, compare, convert, unary};

/// Whether it has only constants, sizes and enumerators as operands, and no assignment, `++`, `--`,
/// call or comma.
#[cycle(constant)]
fn is_constant(e: &CoreExpr) -> bool
    ensures { result ≡ constant e.now }
{
    match e.what {
        CoreKind::Number(_) => true,
        CoreKind::Convert(Conversion::Integer(_))
        | CoreKind::Unary(_)
        | CoreKind::Not
        | CoreKind::Binary { .. }
        | CoreKind::Compare { .. }
        | CoreKind::And
        | CoreKind::Or
        | CoreKind::Conditional => are_constant(e.kids.as_slice()),
        _ => false,
    }
}

/// Whether each is constant.
#[cycle(constant)]
fn are_constant(kids: &[CoreExpr]) -> bool
    ensures { result ≡ constants (cores_of kids.now) }
{
    for kid in kids {
        if !is_constant(kid) {
            return false;
        }
    }
    true
}

/// The number of a value, which is none where it is a pointer or function.
fn number(value: Value) -> Option<u32>
    ensures { result ≡ word_in value }
{
    match value {
        Value::Number(n) => Some(n),
        _ => None,
    }
}

/// 1 where it is so, and else 0.
fn truth(holds: bool) -> u32
    ensures { result ≡ truth_word holds }
{
    if holds { 1 } else { 0 }
}

/// The word of the first expression.
#[cycle(word)]
fn first(kids: &[CoreExpr]) -> Option<u32>
    ensures { result ≡ first_word (cores_of kids.now) }
{
    match kids {
        [a, ..] => word(a),
        [] => None,
    }
}

/// The word of the second expression.
#[cycle(word)]
fn second(kids: &[CoreExpr]) -> Option<u32>
    ensures { result ≡ second_word (cores_of kids.now) }
{
    match kids {
        [_, b, ..] => word(b),
        [] | [_] => None,
    }
}

/// The word of the third expression.
#[cycle(word)]
fn third(kids: &[CoreExpr]) -> Option<u32>
    ensures { result ≡ third_word (cores_of kids.now) }
{
    match kids {
        [_, _, c, ..] => word(c),
        [] | [_] | [_, _] => None,
    }
}

/// The word of a constant expression. None where it is Undefined.
#[cycle(word)]
fn word(e: &CoreExpr) -> Option<u32>
    ensures { result ≡ constant_word e.now }
{
    let kids = e.kids.as_slice();
    match e.what {
        CoreKind::Number(n) => Some(n),
        CoreKind::Convert(Conversion::Integer(scalar)) => {
            number(convert(scalar, Value::Number(first(kids)?)).ok()?)
        }
        CoreKind::Unary(operator) => number(unary(operator, Value::Number(first(kids)?)).ok()?),
        CoreKind::Not => Some(truth(first(kids)? == 0)),
        CoreKind::Binary { operator, signed } => {
            let left = Value::Number(first(kids)?);
            let right = Value::Number(second(kids)?);
            number(binary(signed, operator, left, right).ok()?)
        }
        CoreKind::Compare { operator, signed } => {
            let left = Value::Number(first(kids)?);
            let right = Value::Number(second(kids)?);
            Some(truth(compare(signed, operator, left, right).ok()?))
        }
        CoreKind::And => {
            if first(kids)? == 0 {
                Some(0)
            } else {
                Some(truth(second(kids)? != 0))
            }
        }
        CoreKind::Or => {
            if first(kids)? == 0 {
                Some(truth(second(kids)? != 0))
            } else {
                Some(1)
            }
        }
        CoreKind::Conditional => {
            if first(kids)? == 0 {
                third(kids)
            } else {
                second(kids)
            }
        }
        _ => None,
    }
}

/// Whether the numbers of a type have a sign. Of the types of constants only the unsigned ones have
/// none.
fn is_signed(of: TypeId) -> bool
    ensures { result ≡ has_sign of }
{
    !matches!(of, 3 | 5 | 7 | 9)
}

/// The value of an integer constant expression, as its type has it. None exactly where the expression
/// is none, and where its value is Undefined (C89 3.4).
#[tactic(auto, using(crate::proofs::Folding::fold_seen))]
pub fn fold(e: &CoreExpr) -> Option<i64>
    ensures value { result ≡ folded e.now }
    ensures means { (t : Table) → IsTyped t e.now → result ≡ meant (seen (type_at t) e.now) }
{
    if !is_constant(e) {
        return None;
    }
    let n = word(e)?;
    if is_signed(e.of) {
        Some(i64::from(n.cast_signed()))
    } else {
        Some(i64::from(n))
    }
}

/// The number that a word is, with or without a sign.
fn integer_of(n: u32, signed: bool) -> i64
    ensures { result ≡ (if signed then signed_of n else pos n) }
{
    if signed {
        i64::from(n.cast_signed())
    } else {
        i64::from(n)
    }
}

/// The value of an integer constant expression, whose type stands in the table. None exactly where the
/// expression is none, and where its value is Undefined.
pub fn constant_value(types: &TypeTable, e: &CoreExpr) -> Option<i64>
    requires { IsIn (length types.now.forms) e.now }
    ensures { result ≡ meant (seen (type_at types.now) e.now) }
{
    if is_constant(e) {
        match word(e) {
            Some(n) => Some(integer_of(n, kinds::scalar(types, e.of).signed)),
            None => None,
        }
    } else {
        None
    }
}
