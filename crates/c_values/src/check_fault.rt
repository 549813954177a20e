//! The faults of checking: a broken constraint, a passed limit or a refused allocation.
use lcc_base::{Memory, Which};
use std::alloc::{AllocError, AllocFailed};
use thiserror::Error;

/// Why an expression or a type isn't checked to its end.
#[derive(Clone, Copy, Debug, PartialEq, Eq, Error)]
pub enum CheckFault {
    /// The constraint of this number is broken, at a construct that begins on this line, and nothing is
    /// broken or passed before it.
    #[error("line {line}: constraint {number}")]
    Constraint { number: u8, line: u32 },
    /// A type or a list passes this limit, at a construct that begins on this line, and nothing is
    /// broken or passed before it.
    #[error("line {line}: a limit is passed")]
    Limit { which: Which, line: u32 },
    /// An allocation was refused.
    #[error("an allocation was refused")]
    Memory,
}

impl From<Memory> for CheckFault {
    ghost use Rattle.std.specs.Prelude.{◌≡◌};
    ghost use Rattle.c_values.specs.declared.check_fault.CheckFault.TheVariants.{Memory};

    ghost from_gives = { λ _ e. e ≡ Memory };

    fn from(_: Memory) -> Self {
        CheckFault::Memory
    }
}

impl From<AllocError> for CheckFault {
    ghost use Rattle.std.specs.Prelude.{◌≡◌};
    ghost use Rattle.c_values.specs.declared.check_fault.CheckFault.TheVariants.{Memory};

    ghost from_gives = { λ _ e. e ≡ Memory };

    fn from(_: AllocError) -> Self {
        CheckFault::Memory
    }
}

impl<T: Drop> From<AllocFailed<T>> for CheckFault {
    ghost use Rattle.std.specs.Prelude.{◌≡◌};
    ghost use Rattle.c_values.specs.declared.check_fault.CheckFault.TheVariants.{Memory};

    ghost from_gives = { λ _ e. e ≡ Memory };

    fn from(_: AllocFailed<T>) -> Self {
        CheckFault::Memory
    }
}
