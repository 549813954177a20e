//! Registers, a machine's or virtual, and the operands by which instructions name them.
/// A register: below 64 it is a machine's, from 64 on virtual.
pub type Reg = u32;

/// A register that an instruction names, and whether it is written rather than read.
#[derive(Clone, Copy, Debug, PartialEq, Eq)]
pub struct Operand {
    pub reg: Reg,
    pub written: bool,
}
