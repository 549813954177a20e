//! Why a run goes on no further.
use lcc_base::Memory;
use std::alloc::{AllocError, AllocFailed};

/// Why a run goes on no further.
#[derive(Clone, Copy, Debug, PartialEq, Eq)]
pub(crate) enum Halt {
    /// The program ended with a status.
    Exit(u32),
    /// What comes next has no meaning.
    Stuck,
    /// The stack is too large.
    Deep,
    /// An allocation was refused.
    Memory,
}

impl From<Memory> for Halt {
    fn from(_: Memory) -> Self {
        Halt::Memory
    }
}

impl From<AllocError> for Halt {
    fn from(_: AllocError) -> Self {
        Halt::Memory
    }
}

impl<T: Drop> From<AllocFailed<T>> for Halt {
    fn from(_: AllocFailed<T>) -> Self {
        Halt::Memory
    }
}
