//! Bit-fields: some bits of a unit of four bytes.
//! Source: C89, 3.5.2.1.
ghost use Rattle.std.specs.Prelude.{◌≡◌, ◌≤◌, ◌<◌, ◌+◌, ◌-◌, ◌^◌, map, length};
ghost use Rattle.lcc_base.specs.NumberIn.{number_in};
ghost use Rattle.objects.specs.Bytes.{settled_of, part_bits_of, known_of, number_of_bytes};
ghost use Rattle.objects.specs.Causes.{bits_from};
ghost use Rattle.objects.specs.Fields.{bits_of, shift_of, field_in, with_bits, with_field};

use crate::conversions::{extend, low_bits};
use crate::scalars::{number, word_bytes};
use crate::{Byte, Field, Value};
use lcc_base::{Cause, Order, join};

/// The number of a field. `Unknown` where one of its bits is unknown, else `PointerBytes` where one lies
/// in a byte of a pointer or function. Condition: it has bits and lies in the unit.
pub fn read_field(order: Order, field: Field, unit: &[Byte<Value>]) -> Result<Value, Cause>
    requires four { length unit.now ≡ 4 }
    requires some { 1 ≤ field.width }
    requires inside { field.first + field.width ≤ 32 }
    ensures { result ≡ field_in order field unit.now }
{
    let shift = shift(order, field);
    if bits(shift, field.width, settled(order, unit)) != ones(field.width) {
        Err(Cause::Unknown)
    } else if bits(shift, field.width, part_bits(order, unit)) != 0 {
        Err(Cause::PointerBytes)
    } else {
        let n = bits(shift, field.width, number(order, unit));
        Ok(Value::Number(extend(field.signed, field.width, n)))
    }
}

/// The unit with a number's low bits in the field.
pub fn write_field(order: Order, field: Field, n: u32, unit: &[Byte<Value>]) -> [Byte<Value>; 4]
    requires four { length unit.now ≡ 4 }
    requires inside { field.first + field.width ≤ 32 }
    ensures { result ≡ with_field order field n unit.now }
{
    let shift = shift(order, field);
    let known = replace_bits(shift, field.width, ones(field.width), known(order, unit));
    let value = replace_bits(shift, field.width, n, number(order, unit));
    join_bits(word_bytes(order, known), word_bytes(order, value))
}

/// How many bits of the unit weigh less than the field's.
fn shift(order: Order, field: Field) -> u8
    requires { field.first + field.width ≤ 32 }
    ensures is { result ≡ shift_of order field }
    ensures inside { result + field.width ≤ 32 }
{
    match order {
        Order::Big => 32 - (field.first + field.width),
        Order::Little => field.first,
    }
}

/// The greatest number of so many bits.
fn ones(width: u8) -> u32
    requires { width ≤ 32 }
    ensures { result ≡ 2 ^ width - 1 }
{
    ((1u64 << width) - 1) as u32
}

/// So many bits of a number, from a place on.
fn bits(shift: u8, width: u8, n: u32) -> u32
    requires { shift + width ≤ 32 }
    ensures { result ≡ bits_from shift width n }
{
    let power = 1u64 << width;
    (n as u64 >> shift & (power - 1)) as u32
}

/// A number with others in place of so many of its bits.
fn replace_bits(shift: u8, width: u8, new: u32, n: u32) -> u32
    requires { shift + width ≤ 32 }
    ensures { result ≡ with_bits shift width new n }
{
    let above = shift + width;
    let high = n as u64 >> above << above;
    let middle = (low_bits(width, new) as u64) << shift;
    let low = low_bits(shift, n) as u64;
    (high + middle + low) as u32
}

/// The number of the bits of a unit that aren't unknown.
fn settled(order: Order, unit: &[Byte<Value>]) -> u32
    requires { length unit.now ≡ 4 }
    ensures { result ≡ number_in order (map settled_of unit.now) }
{
    match unit {
        [a, b, c, d] => join(order, &[a.settled(), b.settled(), c.settled(), d.settled()]),
        _ => unreachable!(),
    }
}

/// The number of the bits of a unit that lie in bytes of pointers and functions.
fn part_bits(order: Order, unit: &[Byte<Value>]) -> u32
    requires { length unit.now ≡ 4 }
    ensures { result ≡ number_in order (map part_bits_of unit.now) }
{
    match unit {
        [a, b, c, d] => join(
            order,
            &[a.part_bits(), b.part_bits(), c.part_bits(), d.part_bits()],
        ),
        _ => unreachable!(),
    }
}

/// The number of the known bits of a unit.
fn known(order: Order, unit: &[Byte<Value>]) -> u32
    requires { length unit.now ≡ 4 }
    ensures { result ≡ number_in order (map known_of unit.now) }
{
    match unit {
        [a, b, c, d] => join(order, &[a.known(), b.known(), c.known(), d.known()]),
        _ => unreachable!(),
    }
}

/// The bytes of these masks and values.
fn join_bits(known: [u8; 4], value: [u8; 4]) -> [Byte<Value>; 4]
    ensures { result ≡ bits_of known value }
{
    let [k0, k1, k2, k3] = known;
    let [v0, v1, v2, v3] = value;
    [
        Byte::Bits {
            known: k0,
            value: v0,
        },
        Byte::Bits {
            known: k1,
            value: v1,
        },
        Byte::Bits {
            known: k2,
            value: v2,
        },
        Byte::Bits {
            known: k3,
            value: v3,
        },
    ]
}
