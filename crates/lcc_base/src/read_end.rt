//! The ways in which the reading of a whole input fails.
ghost use Rattle.std.specs.Prelude.{◌≡◌};
ghost use Rattle.lcc_base.specs.declared.read_end.ReadEnd.TheVariants.{Failed, Memory};

use std::alloc::AllocError;
use thiserror::Error;

/// Why a whole read ended without the bytes.
#[derive(Clone, Copy, Debug, PartialEq, Eq, Error)]
pub enum ReadEnd {
    /// A read failed: the source's count of faults rose.
    #[error("a read failed")]
    Failed,
    /// More bytes came than the limit, before any fault.
    #[error("the input is too long")]
    TooLong,
    /// An allocation was refused.
    #[error("an allocation was refused")]
    Memory,
}

impl From<AllocError> for ReadEnd {
    ghost from_gives = { λ _ e. e ≡ Memory };

    fn from(_: AllocError) -> Self {
        ReadEnd::Memory
    }
}

impl From<crate::Failed> for ReadEnd {
    ghost from_gives = { λ _ e. e ≡ Failed };

    fn from(_: crate::Failed) -> Self {
        ReadEnd::Failed
    }
}
