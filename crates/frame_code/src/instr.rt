//! The instructions of generated code, with those that load and store spill slots.
use crate::arithmetic::Arithmetic;
use vcode::Reg;

/// An instruction over registers without number, which a target writes as a few of its machine's. A
/// number is taken modulo 2^32.
/// Source: Fraser and Hanson, A Retargetable C Compiler, chapters 13 to 16.
#[derive(Clone, Copy, Debug, PartialEq, Eq)]
pub enum Instr {
    /// The register gets the number.
    LoadNumber {
        to: Reg,
        number: u32,
    },
    /// The register gets what the operation makes of the other two.
    Binary {
        op: Arithmetic,
        to: Reg,
        from: Reg,
        operand: Source,
    },
    /// The register gets the negative of the other.
    Negate {
        to: Reg,
        from: Reg,
    },
    /// Hands the next argument word of the next call.
    Argument {
        from: Reg,
    },
    /// Calls the function with the argument words that were handed since the last call, and the
    /// register gets its result. The name is its place among the names of the unit.
    Call {
        to: Reg,
        name: u32,
    },
    /// Returns the register's value.
    Return {
        from: Reg,
    },
    /// The register gets the other.
    Copy {
        to: Reg,
        from: Reg,
    },
    /// The register gets what is in the spill slot.
    LoadSlot {
        to: Reg,
        slot: i32,
    },
    /// The spill slot gets what is in the register.
    StoreSlot {
        from: Reg,
        slot: i32,
    },
}

/// The last operand of an operation: a register or a number.
#[derive(Clone, Copy, Debug, PartialEq, Eq)]
pub enum Source {
    Register(Reg),
    Number(u32),
}
