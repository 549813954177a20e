//! Conversions between integer types of 1, 2 and 4 bytes and pointers.
//! Source: C89, 3.2.1.2 and 3.3.4; a conversion to a narrower type keeps the low bits.
ghost use Rattle.std.specs.Prelude.{◌≡◌, ◌≤◌, ◌<◌, ◌%◌, ◌^◌};
ghost use Rattle.objects.specs.Conversions.{sign_extended, extended, as_scalar, converted};
ghost use Rattle.objects.specs.Values.{bits_in};

use crate::{Scalar, Value, Width};
use lcc_base::Cause;

/// So many low bits of a number.
pub fn low_bits(bits: u8, n: u32) -> u32
    requires { bits ≤ 32 }
    ensures { result ≡ n % 2 ^ bits }
{
    let power = 1u64 << bits;
    (n as u64 & (power - 1)) as u32
}

/// The word of a number of so many bits, of which the highest is its sign.
fn extend_sign(bits: u8, n: u32) -> u32
    requires some { 1 ≤ bits }
    requires few { bits ≤ 32 }
    requires low { n < 2 ^ bits }
    ensures { result ≡ sign_extended bits n }
{
    let half = 1u32 << (bits - 1);
    if n < half {
        n
    } else {
        n + ((u32::MAX - half) - (half - 1))
    }
}

/// The word of so many low bits of a number; where it has a sign, the highest of them is it.
pub fn extend(signed: bool, bits: u8, n: u32) -> u32
    requires some { 1 ≤ bits }
    requires few { bits ≤ 32 }
    ensures { result ≡ extended signed bits n }
{
    let low = low_bits(bits, n);
    if signed { extend_sign(bits, low) } else { low }
}

/// A number as a word of the type.
pub fn to_scalar(scalar: Scalar, n: u32) -> u32
    ensures { result ≡ as_scalar scalar n }
{
    match scalar.width {
        Width::One => extend(scalar.signed, 8, n),
        Width::Two => extend(scalar.signed, 16, n),
        Width::Four => n,
    }
}

/// The value as one of the type: a number by its low bits. A pointer or function is kept in four bytes,
/// and `PointerNumber` in fewer.
pub fn convert(scalar: Scalar, value: Value) -> Result<Value, Cause>
    ensures { result ≡ converted scalar value }
{
    match (scalar.width, value) {
        (_, Value::Number(n)) => Ok(Value::Number(to_scalar(scalar, n))),
        (Width::Four, _) => Ok(value),
        _ => Err(Cause::PointerNumber),
    }
}
