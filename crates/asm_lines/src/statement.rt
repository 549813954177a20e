//! The statements of assembly: directives and instructions, with the items of data.
use crate::instruction::Instruction;
use lcc_base::{Bytes, Items};

/// What stands behind the labels of a line, in which places have names of some kind.
#[derive(Debug, Drop)]
pub enum Statement<N> {
    /// Nothing.
    Nothing,
    /// `.text`: what follows is code.
    Text,
    /// `.data`: what follows is data.
    Data,
    /// `.globl name`: the name is seen from outside.
    Global(N),
    /// `.align n`: to a multiple of 2^n bytes, n from 0 to 4.
    Align(u8),
    /// `.word items`: words of four bytes.
    Words(Items<Item<N>>),
    /// `.half items`: the low two bytes of each sum.
    Halves(Items<u16>),
    /// `.byte items`: the low byte of each sum.
    Bytes(Bytes),
    /// `.space n`: so many bytes that are zero.
    Space(u32),
    /// An instruction.
    Instruction(Instruction<N>),
}

/// A word of data: the sum, modulo 2^32, of the place of a name, if there is one, and a number.
#[derive(Clone, Copy, Debug, PartialEq, Eq)]
pub struct Item<N> {
    pub name: Option<N>,
    pub value: u32,
}
