//! The data of a program as directives write them: bytes, halves, words and zeros.
/// What stands in the data, without padding. Names are of some kind.
#[derive(Clone, Copy, Debug, PartialEq, Eq)]
pub enum Datum<N> {
    /// A byte.
    Byte(u8),
    /// Two bytes.
    Half(u16),
    /// Four bytes.
    Word(u32),
    /// Four bytes: the sum, modulo 2^32, of the address of the name and the number.
    Named(N, u32),
    /// So many bytes that are zero.
    Zeros(u32),
}
