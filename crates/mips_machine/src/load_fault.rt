//! The ways in which the loading of a program fails.
ghost use Rattle.std.specs.Prelude.{◌≡◌};
ghost use Rattle.mips_machine.specs.declared.load_fault.LoadFault.TheVariants as fault;

use lcc_base::Memory;
use std::alloc::AllocError;
use thiserror::Error;

/// Why a program wasn't loaded.
#[derive(Clone, Copy, Debug, PartialEq, Eq, Error)]
pub enum LoadFault {
    /// No code label is `main`.
    #[error("no code label is main")]
    NoMain,
    /// An allocation was refused.
    #[error("an allocation was refused")]
    Memory,
}

impl From<Memory> for LoadFault {
    ghost from_gives = { λ _ e. e ≡ fault.Memory };

    fn from(_: Memory) -> Self {
        LoadFault::Memory
    }
}

impl From<AllocError> for LoadFault {
    ghost from_gives = { λ _ e. e ≡ fault.Memory };

    fn from(_: AllocError) -> Self {
        LoadFault::Memory
    }
}
