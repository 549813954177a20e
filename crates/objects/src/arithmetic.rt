//! Arithmetic on words, as signed or unsigned numbers of 32 bits.
//! Source: C89, 3.3.3.3 and 3.3.5 to 3.3.12.
ghost use Rattle.std.specs.Prelude.{◌≡◌, ◌≢◌, ◌<◌, ◌^◌, ◌-◌, true, Some, None, IfNone};
ghost use Rattle.objects.specs.Arithmetic.{unary_word, unary_value, binary_word, binary_value, binary_cause, word_cause, right_cause, division_cause, is_less as less, holds, comparison_value, integer_tested};
ghost use Rattle.objects.specs.Causes.{unless};
ghost use Rattle.objects.specs.declared.operators.Binary.TheVariants as binary;

use crate::{Binary, Comparison, Unary, Value};
use lcc_base::{Cause, sdiv, srem};

/// The operation on an integer. `PointerNumber` where it is a pointer or function.
pub fn unary(op: Unary, value: Value) -> Result<Value, Cause>
    ensures { result ≡ unary_value op value }
{
    match value {
        Value::Number(n) => Ok(Value::Number(change(op, n))),
        _ => Err(Cause::PointerNumber),
    }
}

/// What the operation makes of a word.
pub fn change(op: Unary, n: u32) -> u32
    ensures { result ≡ unary_word op n }
{
    match op {
        Unary::Plus => n,
        Unary::Negate => n.wrapping_neg(),
        Unary::Complement => !n,
    }
}

/// The operation on two integers, signed as its left operand is. `ZeroDivisor`, `DivideOverflow` and
/// `ShiftCount` come where it has no result, and else `PointerNumber` where one of the two is a pointer
/// or function.
pub fn binary(signed: bool, op: Binary, left: Value, right: Value) -> Result<Value, Cause>
    ensures { result ≡ binary_value signed op left right }
{
    match (left, right) {
        (Value::Number(x), Value::Number(y)) => Ok(Value::Number(combine(signed, op, x, y)?)),
        (_, Value::Number(y)) => Err(by_right(op, y)),
        _ => Err(Cause::PointerNumber),
    }
}

/// Why an operation has no result whose left operand is no number.
fn by_right(op: Binary, right: u32) -> Cause
    ensures { result ≡ right_cause op right }
{
    match op {
        Binary::Divide | Binary::Remainder if right == 0 => Cause::ZeroDivisor,
        Binary::ShiftLeft | Binary::ShiftRight if right > 31 => Cause::ShiftCount,
        _ => Cause::PointerNumber,
    }
}

/// What the operation makes of two words, signed as its left operand is. `ZeroDivisor`, `DivideOverflow` and `ShiftCount`
/// come where it has no result.
pub fn combine(signed: bool, op: Binary, x: u32, y: u32) -> Result<u32, Cause>
    ensures { result ≡ unless (word_cause signed op x y) (binary_word signed op x y) }
{
    match op {
        Binary::Add => Ok(x.wrapping_add(y)),
        Binary::Subtract => Ok(x.wrapping_sub(y)),
        Binary::Multiply => Ok(x.wrapping_mul(y)),
        Binary::Divide => divide(signed, x, y),
        Binary::Remainder => remainder(signed, x, y),
        Binary::ShiftLeft => shift_left(signed, x, y),
        Binary::ShiftRight => shift_right(signed, x, y),
        Binary::And => Ok(x & y),
        Binary::Or => Ok(x | y),
        Binary::Xor => Ok(x ^ y),
    }
}

/// Why two words have no quotient.
fn division_fault(signed: bool, x: u32, y: u32) -> Option<Cause>
    ensures is { result ≡ division_cause signed x y }
    ensures divisor { IfNone result (y ≢ 0) }
{
    if y == 0 {
        Some(Cause::ZeroDivisor)
    } else if signed && x == 0x8000_0000 && y == u32::MAX {
        Some(Cause::DivideOverflow)
    } else {
        None
    }
}

/// The quotient, truncated.
fn divide(signed: bool, x: u32, y: u32) -> Result<u32, Cause>
    ensures { result ≡ unless (division_cause signed x y) (binary_word signed binary.Divide x y) }
{
    match division_fault(signed, x, y) {
        Some(cause) => Err(cause),
        None if signed => Ok(signed_quotient(x, y)),
        None => Ok(x / y),
    }
}

/// The quotient of the signed numbers of two words; 0 where there is none.
fn signed_quotient(x: u32, y: u32) -> u32
    ensures { division_cause true x y ≡ None → result ≡ binary_word true binary.Divide x y }
{
    match sdiv(x.cast_signed(), y.cast_signed()) {
        Some(quotient) => quotient.cast_unsigned(),
        None => 0,
    }
}

/// The remainder, with the sign of the first.
fn remainder(signed: bool, x: u32, y: u32) -> Result<u32, Cause>
    ensures { result ≡ unless (division_cause signed x y) (binary_word signed binary.Remainder x y) }
{
    match division_fault(signed, x, y) {
        Some(cause) => Err(cause),
        None if signed => Ok(signed_remainder(x, y)),
        None => Ok(x % y),
    }
}

/// The remainder of the signed numbers of two words; 0 where there is none.
fn signed_remainder(x: u32, y: u32) -> u32
    ensures { division_cause true x y ≡ None → result ≡ binary_word true binary.Remainder x y }
{
    match srem(x.cast_signed(), y.cast_signed()) {
        Some(rest) => rest.cast_unsigned(),
        None => 0,
    }
}

/// Shifted to the left.
fn shift_left(signed: bool, x: u32, y: u32) -> Result<u32, Cause>
    ensures { result ≡ unless (word_cause signed binary.ShiftLeft x y) (binary_word signed binary.ShiftLeft x y) }
{
    if y < 32 {
        Ok(x << y)
    } else {
        Err(Cause::ShiftCount)
    }
}

/// Shifted to the right, a signed number with its sign.
fn shift_right(signed: bool, x: u32, y: u32) -> Result<u32, Cause>
    ensures { result ≡ unless (word_cause signed binary.ShiftRight x y) (binary_word signed binary.ShiftRight x y) }
{
    if y > 31 {
        Err(Cause::ShiftCount)
    } else if signed {
        Ok(shift_arithmetic(x, y))
    } else {
        Ok(x >> y)
    }
}

/// Shifted to the right with the sign.
fn shift_arithmetic(x: u32, y: u32) -> u32
    requires { y < 32 }
    ensures { result ≡ binary_word true binary.ShiftRight x y }
{
    (x.cast_signed() >> y).cast_unsigned()
}

/// Whether the comparison of two integers holds. `PointerNumber` where one of them is a pointer or
/// function.
pub fn compare(signed: bool, op: Comparison, left: Value, right: Value) -> Result<bool, Cause>
    ensures { result ≡ comparison_value signed op left right }
{
    match (left, right) {
        (Value::Number(x), Value::Number(y)) => Ok(compare_words(signed, op, x, y)),
        _ => Err(Cause::PointerNumber),
    }
}

/// Whether the comparison of two words holds, as signed numbers or unsigned ones.
pub fn compare_words(signed: bool, op: Comparison, x: u32, y: u32) -> bool
    ensures { result ≡ holds signed op x y }
{
    match op {
        Comparison::Equal => x == y,
        Comparison::NotEqual => x != y,
        Comparison::Less => is_less(signed, x, y),
        Comparison::LessEqual => !is_less(signed, y, x),
        Comparison::Greater => is_less(signed, y, x),
        Comparison::GreaterEqual => !is_less(signed, x, y),
    }
}

/// Whether the first is the smaller.
fn is_less(signed: bool, x: u32, y: u32) -> bool
    ensures { result ≡ less signed x y }
{
    if signed {
        x.cast_signed() < y.cast_signed()
    } else {
        x < y
    }
}

/// Whether an integer holds as a test. `PointerNumber` where it is a pointer or function.
pub fn test_integer(value: Value) -> Result<bool, Cause>
    ensures { result ≡ integer_tested value }
{
    match value {
        Value::Number(n) => Ok(n != 0),
        _ => Err(Cause::PointerNumber),
    }
}
