//! The faults of forming a type and of completing a structure.
use lcc_base::Memory;
use std::alloc::{AllocError, AllocFailed};
use thiserror::Error;

/// Why a type isn't formed, or a structure not completed.
#[derive(Clone, Copy, Debug, PartialEq, Eq, Error)]
pub enum TypeFault {
    /// An array's element or a member is incomplete, or is a function (C89 3.5.4.2, 3.5.2.1).
    #[error("an element or a member is incomplete or a function")]
    Incomplete,
    /// The type's size is above 16,777,216 bytes.
    #[error("the type is above 16,777,216 bytes")]
    TooLarge,
    /// An allocation was refused.
    #[error("an allocation was refused")]
    Memory,
    /// The type's depth or its nesting is above 500.
    #[error("the type is deeper, or nested deeper, than 500")]
    TooDeep,
}

impl From<Memory> for TypeFault {
    ghost use Rattle.std.specs.Prelude.{◌≡◌};
    ghost use Rattle.c_types.specs.declared.type_fault.TypeFault.TheVariants.{Memory};

    ghost from_gives = { λ _ e. e ≡ Memory };

    fn from(_: Memory) -> Self {
        TypeFault::Memory
    }
}

impl From<AllocError> for TypeFault {
    ghost use Rattle.std.specs.Prelude.{◌≡◌};
    ghost use Rattle.c_types.specs.declared.type_fault.TypeFault.TheVariants.{Memory};

    ghost from_gives = { λ _ e. e ≡ Memory };

    fn from(_: AllocError) -> Self {
        TypeFault::Memory
    }
}

impl<T: Drop> From<AllocFailed<T>> for TypeFault {
    ghost use Rattle.std.specs.Prelude.{◌≡◌};
    ghost use Rattle.c_types.specs.declared.type_fault.TypeFault.TheVariants.{Memory};

    ghost from_gives = { λ _ e. e ≡ Memory };

    fn from(_: AllocFailed<T>) -> Self {
        TypeFault::Memory
    }
}
