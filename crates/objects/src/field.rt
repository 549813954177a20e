//! Bit-fields: where one stands in its unit of storage, its width and its sign.
/// A bit-field's place in its unit of four bytes.
/// Source: C89, 3.5.2.1; big-endian machines fill a unit from its most significant bit, little-endian
/// ones from the least.
#[derive(Clone, Copy, Debug, PartialEq, Eq)]
pub struct Field {
    /// How many bits of the unit were filled before it.
    pub first: u8,
    /// How many bits it has, from 1 to 32.
    pub width: u8,
    /// Whether its numbers have a sign.
    pub signed: bool,
}
