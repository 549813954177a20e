//! The scalar that bytes in memory are, and the bytes of a scalar.
//! Source: C89, 3.1.2.5 (representation of types).
ghost use Rattle.std.specs.Prelude.{◌≡◌, ◌⊎◌, ◌∷◌, [], length};
ghost use Rattle.objects.specs.Accesses.{number_given};
ghost use Rattle.objects.specs.Bytes.{number_bytes, number_of_bytes, whole_of, by_weight, is_part_of, part_bytes};
ghost use Rattle.objects.specs.Conversions.{as_type};
ghost use Rattle.objects.specs.Scalars.{scalar_of};
ghost use Rattle.objects.specs.Values.{bytes_in};
ghost use Rattle.objects.specs.Values as values;

use crate::byte::{any_part, any_unknown};
use crate::conversions::to_scalar;
use crate::{Byte, ObjectName, Scalar, Value};
use lcc_base::{Cause, Order, join, split};

/// The scalar of a type that bytes are. `Unknown` where a bit is unknown, else `PointerBytes` where some
/// are bytes of pointers or functions, and not all of one in order.
pub fn scalar(order: Order, scalar: Scalar, bytes: &[Byte<Value>]) -> Result<Value, Cause>
    requires { length bytes.now ≡ bytes_in scalar.width }
    ensures { result ≡ scalar_of order scalar bytes.now }
{
    if any_unknown(bytes) {
        return Err(Cause::Unknown);
    }
    match whole(order, bytes) {
        Some(value) => Ok(typed(scalar, value)),
        None if any_part(bytes) => Err(Cause::PointerBytes),
        None => Ok(Value::Number(to_scalar(scalar, number(order, bytes)))),
    }
}

/// A number as one of the type; a pointer or function as it is.
fn typed(scalar: Scalar, value: Value) -> Value
    ensures { result ≡ as_type scalar value }
{
    match value {
        Value::Number(n) => Value::Number(to_scalar(scalar, n)),
        _ => value,
    }
}

/// The number of the known bits of 1, 2 or 4 bytes.
pub fn number(order: Order, bytes: &[Byte<Value>]) -> u32
    requires { (length bytes.now ≡ 1) ⊎ (length bytes.now ≡ 2) ⊎ (length bytes.now ≡ 4) }
    ensures { result ≡ number_of_bytes order bytes.now }
{
    match bytes {
        [a] => join(order, &[a.value()]),
        [a, b] => join(order, &[a.value(), b.value()]),
        [a, b, c, d] => join(order, &[a.value(), b.value(), c.value(), d.value()]),
        _ => unreachable!(),
    }
}

/// The pointer or function all whose bytes these are, in memory's order.
fn whole(order: Order, bytes: &[Byte<Value>]) -> Option<Value>
    ensures { result ≡ whole_of values.same_whole (by_weight order bytes.now) }
{
    match (order, bytes) {
        (Order::Big, [a, b, c, d]) => whole_by_weight(*a, *b, *c, *d),
        (Order::Little, [a, b, c, d]) => whole_by_weight(*d, *c, *b, *a),
        _ => None,
    }
}

/// The same of four bytes, from the one that weighs most.
fn whole_by_weight(a: Byte<Value>, b: Byte<Value>, c: Byte<Value>, d: Byte<Value>) -> Option<Value>
    ensures { result ≡ whole_of values.same_whole (a ∷ b ∷ c ∷ d ∷ []) }
{
    match a {
        Byte::Bits { .. } => None,
        Byte::Part { whole, .. } => {
            if is_part(whole, 0, a)
                && is_part(whole, 1, b)
                && is_part(whole, 2, c)
                && is_part(whole, 3, d)
            {
                Some(whole)
            } else {
                None
            }
        }
    }
}

/// Whether it is the byte of this pointer or function at this place.
fn is_part(whole: Value, place: u8, byte: Byte<Value>) -> bool
    ensures { result ≡ is_part_of values.same_whole whole place byte }
{
    match byte {
        Byte::Bits { .. } => false,
        Byte::Part {
            whole: other,
            place: k,
        } => same_whole(whole, other) && k == place,
    }
}

/// The number that was read, if it was one.
pub fn given_number(read: Result<Value, Cause>) -> Option<u32>
    ensures { result ≡ number_given read }
{
    match read {
        Ok(Value::Number(n)) => Some(n),
        _ => None,
    }
}

/// Whether it is the same pointer or function.
pub fn same_whole(a: Value, b: Value) -> bool
    ensures { result ≡ values.same_whole a b }
{
    match (a, b) {
        (
            Value::Pointer { object, offset },
            Value::Pointer {
                object: other,
                offset: place,
            },
        ) => same_object(object, other) && offset == place,
        (Value::Function(f), Value::Function(g)) => f == g,
        _ => false,
    }
}

/// Whether it is the same object.
pub fn same_object(a: ObjectName, b: ObjectName) -> bool
    ensures { result ≡ values.same_object a b }
{
    a.place == b.place && a.made == b.made && a.size == b.size
}

/// The four bytes of a pointer or function, in memory's order.
pub fn parts(order: Order, whole: Value) -> [Byte<Value>; 4]
    ensures { result ≡ part_bytes order whole }
{
    let [a, b, c, d] = [
        Byte::Part { whole, place: 0 },
        Byte::Part { whole, place: 1 },
        Byte::Part { whole, place: 2 },
        Byte::Part { whole, place: 3 },
    ];
    match order {
        Order::Big => [a, b, c, d],
        Order::Little => [d, c, b, a],
    }
}

/// The four bytes of a word in memory.
pub fn word_bytes(order: Order, n: u32) -> [u8; 4]
    ensures is { result ≡ number_bytes order 4 n }
    ensures four { length result ≡ 4 }
{
    split(order, n)
}

/// The low two bytes of a word in memory.
pub fn half_bytes(order: Order, n: u32) -> [u8; 2]
    ensures is { result ≡ number_bytes order 2 n }
    ensures two { length result ≡ 2 }
{
    let high = (n >> 8 & 0xff) as u8;
    let low = (n & 0xff) as u8;
    match order {
        Order::Big => [high, low],
        Order::Little => [low, high],
    }
}
