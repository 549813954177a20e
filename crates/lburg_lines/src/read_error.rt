//! The errors of the parsers of tokens: where they are stuck, or that memory ran out.
ghost use Rattle.std.specs.Prelude.{◌≡◌};
ghost use Rattle.lburg_lines.specs.declared.read_error.ReadError.TheVariants.{Memory};

use std::alloc::{AllocError, AllocFailed};
use thiserror::Error;

/// Why a reader of tokens gave no value.
#[derive(Clone, Copy, Debug, PartialEq, Eq, Error)]
pub enum ReadError {
    /// An allocation was refused.
    #[error("an allocation was refused")]
    Memory,
    /// The token behind which so many are left, itself included, can't go on, or, where none is
    /// left, one is missing.
    #[error("stuck with {0} tokens left")]
    Stuck(usize),
}

impl From<AllocError> for ReadError {
    ghost from_gives = { λ _ e. e ≡ Memory };

    fn from(_e: AllocError) -> ReadError {
        ReadError::Memory
    }
}

impl<T: Drop> From<AllocFailed<T>> for ReadError {
    ghost from_gives = { λ _ e. e ≡ Memory };

    fn from(_e: AllocFailed<T>) -> ReadError {
        ReadError::Memory
    }
}
