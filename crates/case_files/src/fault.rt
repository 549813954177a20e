//! The faults of case files, with the lines at which they stand.
use std::alloc::{AllocError, AllocFailed};
use thiserror::Error;

/// Why a case file can't be read.
#[derive(Clone, Copy, Debug, PartialEq, Eq, Error)]
pub enum CaseFault {
    /// The line is none of a case file.
    #[error("no line of a case file")]
    UnknownLine,
    /// A section stands before one that has to stand before it, twice, or outside a case.
    #[error("a section out of its place")]
    OutOfPlace,
    /// Bytes stand where none may.
    #[error("bytes outside a section")]
    NoSection,
    /// A number isn't decimal, or is too great.
    #[error("a bad number")]
    BadNumber,
    /// Bytes aren't pairs of hexadecimal digits with a blank between them.
    #[error("bad hexadecimal bytes")]
    BadBytes,
    /// No text of this name stands before.
    #[error("an unknown text")]
    UnknownText,
    /// A case ends before its status.
    #[error("a case without a status")]
    NoStatus,
    /// A source ends before what has to be told of it.
    #[error("a source without what is told of it")]
    NothingTold,
    /// An allocation was refused.
    #[error("an allocation was refused")]
    Memory,
}

impl From<AllocError> for CaseFault {
    fn from(_: AllocError) -> Self {
        CaseFault::Memory
    }
}

impl<T: Drop> From<AllocFailed<T>> for CaseFault {
    fn from(_: AllocFailed<T>) -> Self {
        CaseFault::Memory
    }
}

/// A fault of a case file, and the number of its line, from 1.
#[derive(Clone, Copy, Debug, PartialEq, Eq)]
pub struct Refused {
    pub line: u64,
    pub fault: CaseFault,
}

impl From<AllocError> for Refused {
    fn from(_: AllocError) -> Self {
        Refused {
            line: 0,
            fault: CaseFault::Memory,
        }
    }
}
