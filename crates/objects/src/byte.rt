//! Bytes of an object's representation: bits known in part, or pieces of a pointer.
ghost use Rattle.std.specs.Prelude.{◌≡◌};
ghost use Rattle.objects.specs.Bytes.{known_of, value_of, part_bits_of, settled_of, has_unknown_bits, has_parts};

use crate::Value;

/// A byte of an object, over the values that have bytes without bits.
#[derive(Clone, Copy, Debug, PartialEq, Eq)]
pub enum Byte<V> {
    /// Eight bits, of which those of the mask are known; the others are 0 in the value.
    Bits {
        /// The mask of the known bits.
        known: u8,
        /// The known bits.
        value: u8,
    },
    /// A byte of a pointer or function, by its place from the one that weighs most.
    Part {
        /// The pointer or function.
        whole: V,
        /// From 0 to 3.
        place: u8,
    },
}

impl Byte<Value> {
    /// The mask of its known bits.
    pub fn known(self) -> u8
        ensures { result ≡ known_of self }
    {
        match self {
            Byte::Bits { known, .. } => known,
            Byte::Part { .. } => 0,
        }
    }

    /// Its known bits.
    pub fn value(self) -> u8
        ensures { result ≡ value_of self }
    {
        match self {
            Byte::Bits { value, .. } => value,
            Byte::Part { .. } => 0,
        }
    }

    /// The mask of the bits that lie in a byte of a pointer or function.
    pub fn part_bits(self) -> u8
        ensures { result ≡ part_bits_of self }
    {
        match self {
            Byte::Bits { .. } => 0,
            Byte::Part { .. } => 255,
        }
    }

    /// The mask of the bits that aren't unknown.
    pub fn settled(self) -> u8
        ensures { result ≡ settled_of self }
    {
        match self {
            Byte::Bits { known, .. } => known,
            Byte::Part { .. } => 255,
        }
    }
}

/// Whether one of them has an unknown bit.
pub fn any_unknown(bytes: &[Byte<Value>]) -> bool
    ensures { result ≡ has_unknown_bits bytes.now }
{
    match bytes {
        [] => false,
        [first, rest @ ..] => first.settled() != 255 || any_unknown(rest),
    }
}

/// Whether one of them is a byte of a pointer or function.
pub fn any_part(bytes: &[Byte<Value>]) -> bool
    ensures { result ≡ has_parts bytes.now }
{
    match bytes {
        [] => false,
        [first, rest @ ..] => matches!(first, Byte::Part { .. }) || any_part(rest),
    }
}
