//! The faults of a text of assembly, each with its line.
ghost use Rattle.std.specs.Prelude.{◌≡◌};

use lcc_base::{Memory, Which};
use std::alloc::{AllocError, AllocFailed};
use thiserror::Error;

/// Why no program was read: the first fault of the text, with its line, from 1. `UnknownLabel` comes only where the text
/// has no other.
#[derive(Clone, Copy, Debug, PartialEq, Eq, Error)]
pub enum AsmFault {
    /// The line has no such form, or its word has no place in its section.
    #[error("line {line}: no line has this form")]
    BadLine { line: u32 },
    /// The line's word is neither an instruction's nor a directive's.
    #[error("line {line}: the word is no instruction and no directive")]
    UnknownInstruction { line: u32 },
    /// The operands are not of the form that the word asks for.
    #[error("line {line}: the operands have another form")]
    BadOperand { line: u32 },
    /// A label of this name stands before.
    #[error("line {line}: the label stands twice")]
    DoubleLabel { line: u32 },
    /// A name that the line uses is neither a label nor a built-in function.
    #[error("line {line}: the name is no label")]
    UnknownLabel { line: u32 },
    /// The line goes past a limit: of instructions (`Code`) or of bytes of data (`Data`).
    #[error("line {line}: past a limit")]
    TooLarge { line: u32, which: Which },
    /// An allocation was refused.
    #[error("an allocation was refused")]
    Memory,
}

impl From<Memory> for AsmFault {
    ghost use Rattle.asm_text.specs.declared.asm_fault.AsmFault.TheVariants as fault;

    ghost from_gives = { λ _ e. e ≡ fault.Memory };

    fn from(_: Memory) -> Self {
        AsmFault::Memory
    }
}

impl From<AllocError> for AsmFault {
    ghost use Rattle.asm_text.specs.declared.asm_fault.AsmFault.TheVariants as fault;

    ghost from_gives = { λ _ e. e ≡ fault.Memory };

    fn from(_: AllocError) -> Self {
        AsmFault::Memory
    }
}

impl<T: Drop> From<AllocFailed<T>> for AsmFault {
    ghost use Rattle.asm_text.specs.declared.asm_fault.AsmFault.TheVariants as fault;

    ghost from_gives = { λ _ e. e ≡ fault.Memory };

    fn from(_: AllocFailed<T>) -> Self {
        AsmFault::Memory
    }
}
