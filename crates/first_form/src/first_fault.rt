//! The faults of reading a program of the first form.
ghost use Rattle.std.specs.Prelude.{◌≡◌};

use lcc_base::Memory;
use std::alloc::AllocFailed;
use thiserror::Error;

/// Why no program was read.
#[derive(Clone, Copy, Debug, PartialEq, Eq, Error)]
pub enum FirstFault {
    /// The text is of no program of the first form.
    #[error("the text is of no program of the first form")]
    BadText,
    /// Memory ran out.
    #[error("memory ran out")]
    Memory,
}

impl From<Memory> for FirstFault {
    ghost use Rattle.first_form.specs.declared.first_fault.FirstFault.TheVariants as fault;

    ghost from_gives = { λ _ e. e ≡ fault.Memory };

    fn from(_: Memory) -> Self {
        FirstFault::Memory
    }
}

impl<T: Drop> From<AllocFailed<T>> for FirstFault {
    ghost use Rattle.first_form.specs.declared.first_fault.FirstFault.TheVariants as fault;

    ghost from_gives = { λ _ e. e ≡ fault.Memory };

    fn from(_: AllocFailed<T>) -> Self {
        FirstFault::Memory
    }
}
