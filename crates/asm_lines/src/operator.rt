//! The operators of MIPS instructions: arithmetic, loads, stores and the conditions of branches.
/// What makes a word of one.
#[derive(Clone, Copy, Debug, PartialEq, Eq)]
pub enum UnaryOp {
    /// `negu`: the negative modulo 2^32.
    Negate,
    /// `not`: each bit is the other one.
    Not,
}

/// What makes a word of two.
#[derive(Clone, Copy, Debug, PartialEq, Eq)]
pub enum BinaryOp {
    /// `addu`: the sum modulo 2^32.
    Add,
    /// `subu`: the difference modulo 2^32.
    Subtract,
    /// `mul`: the product modulo 2^32.
    Multiply,
    /// `div`: the quotient of signed numbers, truncated.
    Divide,
    /// `rem`: its remainder.
    Remainder,
    /// `divu`: the quotient of unsigned numbers.
    DivideUnsigned,
    /// `remu`: its remainder.
    RemainderUnsigned,
    /// `and`
    And,
    /// `or`
    Or,
    /// `xor`
    Xor,
    /// `sll`: shifted to the left, by the second modulo 32.
    ShiftLeft,
    /// `srl`: shifted to the right, with zeros at the left.
    ShiftRight,
    /// `sra`: shifted to the right, with the sign at the left.
    ShiftRightArithmetic,
}

/// What a load reads.
#[derive(Clone, Copy, Debug, PartialEq, Eq)]
pub enum LoadOp {
    /// `lb`: a byte, with its sign extended.
    Byte,
    /// `lbu`: a byte, with zeros.
    ByteUnsigned,
    /// `lh`: two bytes, with their sign extended.
    Half,
    /// `lhu`: two bytes, with zeros.
    HalfUnsigned,
    /// `lw`: a word.
    Word,
}

/// What a store writes.
#[derive(Clone, Copy, Debug, PartialEq, Eq)]
pub enum StoreOp {
    /// `sb`: the low byte.
    Byte,
    /// `sh`: the low two bytes.
    Half,
    /// `sw`: the word.
    Word,
}

/// When a branch goes.
#[derive(Clone, Copy, Debug, PartialEq, Eq)]
pub enum Condition {
    /// `beq`
    Equal,
    /// `bne`
    NotEqual,
    /// `blt`: less, of signed numbers.
    Less,
    /// `ble`: less or equal, of signed numbers.
    LessEqual,
    /// `bgt`: greater, of signed numbers.
    Greater,
    /// `bge`: greater or equal, of signed numbers.
    GreaterEqual,
    /// `bltu`: less, of unsigned numbers.
    LessUnsigned,
    /// `bleu`: less or equal, of unsigned numbers.
    LessEqualUnsigned,
    /// `bgtu`: greater, of unsigned numbers.
    GreaterUnsigned,
    /// `bgeu`: greater or equal, of unsigned numbers.
    GreaterEqualUnsigned,
}
