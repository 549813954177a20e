//! Values of pointer type moved, ordered, subtracted, compared and tested, given whether they point to an
//! object past its lifetime; then the answer is `Dead`.
//! Source: C89, 3.3.6, 3.3.8 and 3.3.9, in the profile of this compiler.
ghost use Rattle.std.specs.Prelude.{◌≡◌, ℕ, ◌<◌, ◌≤ℤ◌, ◌+ℤ◌, ◌&&◌, ◌||◌, not, pos, Some, None, int_le, int_div, if◌then◌else◌};
ghost use Rattle.std.specs.Int.{cast_unsigned, w32, int_wrap};
ghost use Rattle.std.specs.Int.RustNames.{unsigned_abs};
ghost use Rattle.objects.specs.Causes as causes;
ghost use Rattle.objects.specs.Values.{same_object as same_name};
ghost use Rattle.objects.specs.declared.value.Value.TheVariants.{Number, Pointer, Function};
ghost use Rattle.objects.specs.Pointers.{moved_if, position_of, ordered_if, bytes_between, subtracted_if, same as same_value, compared_if, is_not_null, tested_if};

use crate::scalars::{same_object, same_whole};
use crate::{ObjectName, Value};
use lcc_base::{Cause, wrap32};
use std::cmp::Ordering;

/// The value moved by so many bytes, exactly counted. `PointerRange` where a pointer leaves 0 to the size
/// of its object, and where a number or function is moved by anything but 0.
pub fn move_pointer(dead: bool, p: Value, by: i64) -> Result<Value, Cause>
    ensures { result ≡ moved_if dead p by }
{
    if dead {
        return Err(Cause::Dead);
    }
    match p {
        Value::Pointer { object, offset } => match place_after(object.size, offset, by) {
            Some(offset) => Ok(Value::Pointer { object, offset }),
            None => Err(Cause::PointerRange),
        },
        _ if by == 0 => Ok(p),
        _ => Err(Cause::PointerRange),
    }
}

/// A place in an object of so many bytes moved, if it stays in 0 to the size.
fn place_after(size: u32, offset: u32, by: i64) -> Option<u32>
    ensures { result ≡ (if int_le (pos 0) (pos offset +ℤ by) && int_le (pos offset +ℤ by) (pos size) then Some (unsigned_abs (pos offset +ℤ by)) else None) }
{
    let before = offset as i64;
    if by >= -before && by <= size as i64 - before {
        Some((before + by) as u32)
    } else {
        None
    }
}

/// A place in its object, or a number.
fn position(p: Value) -> u32
    ensures { result ≡ position_of p }
{
    match p {
        Value::Number(n) => n,
        Value::Pointer { offset, .. } => offset,
        Value::Function(_) => 0,
    }
}

/// Whether two values are neither both pointers into one object nor both numbers.
fn has_no_order(p: Value, q: Value) -> bool
    ensures { result ≡ causes.has_no_order p q }
{
    match (p, q) {
        (Value::Pointer { object, .. }, Value::Pointer { object: other, .. }) => {
            !same_object(object, other)
        }
        (Value::Number(_), Value::Number(_)) => false,
        _ => true,
    }
}

/// Which of two values is the smaller. `PointerOrder` where they are neither both pointers into one object
/// nor both numbers.
pub fn order_pointers(dead: bool, p: Value, q: Value) -> Result<Ordering, Cause>
    ensures { result ≡ ordered_if dead p q }
{
    if dead {
        Err(Cause::Dead)
    } else if has_no_order(p, q) {
        Err(Cause::PointerOrder)
    } else {
        Ok(position(p).cmp(&position(q)))
    }
}

/// How many bytes lie between two places, or two numbers modulo 2^32.
fn between(p: Value, q: Value) -> i64
    ensures { result ≡ bytes_between p q }
{
    match p {
        Value::Number(x) => x.wrapping_sub(position(q)).cast_signed() as i64,
        Value::Pointer { offset, .. } => offset as i64 - position(q) as i64,
        Value::Function(_) => 0 - position(q) as i64,
    }
}

/// How many elements of so many bytes these bytes are, modulo 2^32, if they are whole ones.
fn elements(bytes: i64, element: u32) -> Option<u32>
    ensures { result ≡ (if causes.is_no_multiple bytes element then None else Some (cast_unsigned w32 (int_wrap w32 (int_div bytes (pos element))))) }
{
    let size = element as i64;
    if element == 0 || bytes % size != 0 {
        return None;
    }
    Some(wrap32(bytes / size).cast_unsigned())
}

/// How many elements of so many bytes lie between two values. `PointerOrder` where they have no order, the
/// element has no bytes, or the bytes between are no multiple of it.
pub fn subtract_pointers(dead: bool, element: u32, p: Value, q: Value) -> Result<Value, Cause>
    ensures { result ≡ subtracted_if dead element p q }
{
    if dead {
        return Err(Cause::Dead);
    }
    if has_no_order(p, q) {
        return Err(Cause::PointerOrder);
    }
    match elements(between(p, q), element) {
        Some(count) => Ok(Value::Number(count)),
        None => Err(Cause::PointerOrder),
    }
}

/// Whether it is a pointer one past its object's last byte.
fn is_one_past(object: ObjectName, offset: u32) -> bool
    ensures { result ≡ causes.is_one_past object offset }
{
    offset == object.size
}

/// Whether the language leaves open if pointers to these places are equal.
fn are_open(a: ObjectName, x: u32, b: ObjectName, y: u32) -> bool
    ensures { result ≡ (not (same_name a b) && (causes.is_one_past a x || causes.is_one_past b y)) }
{
    !same_object(a, b) && (is_one_past(a, x) || is_one_past(b, y))
}

/// Whether the language leaves open if two values are equal.
fn has_no_equality(p: Value, q: Value) -> bool
    ensures { result ≡ causes.has_no_equality p q }
{
    match p {
        Value::Pointer { object, offset } => is_pointer_open(object, offset, q),
        Value::Number(n) => is_number_open(n, q),
        Value::Function(_) => is_function_open(q),
    }
}

/// Whether the language leaves open if a pointer and a value are equal.
fn is_pointer_open(object: ObjectName, offset: u32, q: Value) -> bool
    ensures { result ≡ causes.has_no_equality (Pointer object offset) q }
{
    match q {
        Value::Pointer {
            object: other,
            offset: place,
        } => are_open(object, offset, other, place),
        Value::Number(n) => n != 0,
        Value::Function(_) => false,
    }
}

/// Whether the language leaves open if a number and a value are equal.
fn is_number_open(n: u32, q: Value) -> bool
    ensures { result ≡ causes.has_no_equality (Number n) q }
{
    match q {
        Value::Number(_) => false,
        _ => n != 0,
    }
}

/// Whether the language leaves open if a function and a value are equal.
fn is_function_open(q: Value) -> bool
    ensures { (f : ℕ) → result ≡ causes.has_no_equality (Function f) q }
{
    match q {
        Value::Number(n) => n != 0,
        _ => false,
    }
}

/// Whether they are one value.
fn same(p: Value, q: Value) -> bool
    ensures { result ≡ same_value p q }
{
    match (p, q) {
        (Value::Number(x), Value::Number(y)) => x == y,
        _ => same_whole(p, q),
    }
}

/// Whether two values are equal. `PointerEqual` where a pointer one past its object is compared with one to
/// another object, or a pointer or function with a number other than 0.
pub fn compare_pointers(dead: bool, p: Value, q: Value) -> Result<bool, Cause>
    ensures { result ≡ compared_if dead p q }
{
    if dead {
        Err(Cause::Dead)
    } else if has_no_equality(p, q) {
        Err(Cause::PointerEqual)
    } else {
        Ok(same(p, q))
    }
}

/// Whether a value holds as a test.
pub fn test_pointer(dead: bool, p: Value) -> Result<bool, Cause>
    ensures { result ≡ tested_if dead p }
{
    if dead {
        return Err(Cause::Dead);
    }
    match p {
        Value::Number(n) => Ok(n != 0),
        _ => Ok(true),
    }
}
