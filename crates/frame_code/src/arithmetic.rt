//! The arithmetic operations of instructions that rules select.
/// What a word is made of two by, modulo 2^32.
#[derive(Clone, Copy, Debug, PartialEq, Eq)]
pub enum Arithmetic {
    /// The sum.
    Add,
    /// The difference.
    Subtract,
    /// The product.
    Multiply,
}
