//! The type suffixes of the operators, from char to void.
/// The type of an operator's value.
/// Source: Fraser and Hanson, A Retargetable C Compiler, chapter 5.
#[derive(Clone, Copy, Debug, PartialEq, Eq)]
pub enum Suffix {
    /// char
    C,
    /// short
    S,
    /// int
    I,
    /// unsigned
    U,
    /// pointer
    P,
    /// block
    B,
    /// void
    V,
}
