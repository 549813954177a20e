//! The faults with which a line of assembly is refused as a statement.
ghost use Rattle.std.specs.Prelude.{◌≡◌};

use lcc_base::Memory;
use std::alloc::{AllocError, AllocFailed};
use thiserror::Error;

/// Why no statement was read.
#[derive(Clone, Copy, Debug, PartialEq, Eq, Error)]
pub enum StatementFault {
    /// No word stands first, or a known one without blanks before its operands, or one that has no place in the section.
    #[error("no line has this form")]
    BadLine,
    /// Its word is neither an instruction's nor a directive's.
    #[error("the word is no instruction and no directive")]
    UnknownInstruction,
    /// The operands are not of the form that the word asks for.
    #[error("the operands have another form")]
    BadOperand,
    /// An allocation was refused.
    #[error("an allocation was refused")]
    Memory,
}

impl From<Memory> for StatementFault {
    ghost use Rattle.asm_lines.specs.declared.fault.StatementFault.TheVariants as fault;

    ghost from_gives = { λ _ e. e ≡ fault.Memory };

    fn from(_: Memory) -> Self {
        StatementFault::Memory
    }
}

impl From<AllocError> for StatementFault {
    ghost use Rattle.asm_lines.specs.declared.fault.StatementFault.TheVariants as fault;

    ghost from_gives = { λ _ e. e ≡ fault.Memory };

    fn from(_: AllocError) -> Self {
        StatementFault::Memory
    }
}

impl<T: Drop> From<AllocFailed<T>> for StatementFault {
    ghost use Rattle.asm_lines.specs.declared.fault.StatementFault.TheVariants as fault;

    ghost from_gives = { λ _ e. e ≡ fault.Memory };

    fn from(_: AllocFailed<T>) -> Self {
        StatementFault::Memory
    }
}
