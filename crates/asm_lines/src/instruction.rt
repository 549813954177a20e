//! The instructions of MIPS assembly with their operands: values, addresses and targets.
use crate::operator::{BinaryOp, Condition, LoadOp, StoreOp, UnaryOp};
use crate::register::Register;

/// An instruction, in which places have names of some kind. A number is taken modulo 2^32.
/// Source: G. Kane and J. Heinrich, MIPS RISC Architecture, 1992, with the macros of its assemblers.
#[derive(Clone, Copy, Debug, PartialEq, Eq)]
pub enum Instruction<N> {
    /// `la d,A`: the register gets the address.
    LoadAddress(Register, Address<N>),
    /// `li d,K`: the register gets the number.
    LoadNumber(Register, u32),
    /// `move d,s`: the first register gets the second.
    Move(Register, Register),
    /// `negu d,s` and `not d,s`: the first register gets what the operation makes of the second.
    Unary(UnaryOp, Register, Register),
    /// `addu d,s,t` and the like: the first register gets what the operation makes of the others.
    Binary(BinaryOp, Register, Register, Value),
    /// `lw d,A` and the like: the register gets what stands at the address.
    Load(LoadOp, Register, Address<N>),
    /// `sw s,A` and the like: the register is stored at the address.
    Store(StoreOp, Register, Address<N>),
    /// `b L`: goes on at the label.
    Branch(N),
    /// `beq s,t,L` and the like: goes on at the label where the comparison holds.
    BranchIf(Condition, Register, Value, N),
    /// `j L` and `j s`: goes on at the target.
    Jump(Target<N>),
    /// `jal L` and `jal s`: `$31` gets the address behind this instruction, and it goes on at the target.
    Call(Target<N>),
}

/// A register or a number.
#[derive(Clone, Copy, Debug, PartialEq, Eq)]
pub enum Value {
    Register(Register),
    Number(u32),
}

/// An address: the sum, modulo 2^32, of the place of a name, a number and a register; at least one of them is written.
#[derive(Clone, Copy, Debug, PartialEq, Eq)]
pub struct Address<N> {
    pub name: Option<N>,
    /// 0 where no number is written.
    pub offset: u32,
    pub base: Option<Register>,
}

/// Where a jump goes.
#[derive(Clone, Copy, Debug, PartialEq, Eq)]
pub enum Target<N> {
    /// To the place of this name.
    Label(N),
    /// To the address in the register.
    Register(Register),
}
