//! The faults of the trees behind a description, with their lines.
ghost use Rattle.std.specs.Prelude.{◌≡◌};

use lcc_base::Memory;
use std::alloc::{AllocError, AllocFailed};
use thiserror::Error;

/// Why the trees of a tail were not read. Lines count from 1, those of the description included.
#[derive(Clone, Copy, Debug, PartialEq, Eq, Error)]
pub enum TreeFault {
    /// The line is neither blank nor a tree.
    #[error("line {line}: BadTree")]
    BadTree { line: u32 },
    /// A name isn't a terminal's.
    #[error("line {line}: UnknownOp")]
    UnknownOp { line: u32 },
    /// An operator has another number of operands than the rules use it with.
    #[error("line {line}: WrongArity")]
    WrongArity { line: u32 },
    /// A tree has more than 65,535 nodes.
    #[error("line {line}: limit nodes")]
    TooLarge { line: u32 },
    /// A parenthesis opens while 499 are open.
    #[error("line {line}: limit height")]
    TooHigh { line: u32 },
    /// An allocation was refused.
    #[error("an allocation was refused")]
    Memory,
}

impl From<Memory> for TreeFault {
    ghost use Rattle.lburg_trees.specs.declared.tree_fault.TreeFault.TheVariants as fault;

    ghost from_gives = { λ _ e. e ≡ fault.Memory };

    fn from(_: Memory) -> Self {
        TreeFault::Memory
    }
}

impl From<AllocError> for TreeFault {
    ghost use Rattle.lburg_trees.specs.declared.tree_fault.TreeFault.TheVariants as fault;

    ghost from_gives = { λ _ e. e ≡ fault.Memory };

    fn from(_: AllocError) -> Self {
        TreeFault::Memory
    }
}

impl<T: Drop> From<AllocFailed<T>> for TreeFault {
    ghost use Rattle.lburg_trees.specs.declared.tree_fault.TreeFault.TheVariants as fault;

    ghost from_gives = { λ _ e. e ≡ fault.Memory };

    fn from(_: AllocFailed<T>) -> Self {
        TreeFault::Memory
    }
}
