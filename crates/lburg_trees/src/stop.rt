//! What stops the reading of a line's tree: a fault at a token, or a refused allocation.
ghost use Rattle.std.specs.Prelude.{◌≡◌, ℕ};
ghost use Rattle.lburg_trees.specs.declared.row.Row.{Row as Rows};
ghost use Rattle.lburg_trees.specs.FirstFault.{told};

use crate::row::Row;
use crate::tree_fault::TreeFault;
use lcc_base::Memory;
use std::alloc::AllocError;

/// Why a line gave no tree.
#[derive(Clone, Copy, Debug, PartialEq, Eq)]
pub(crate) enum Stop {
    /// An allocation was refused.
    Memory,
    /// The first fault, at the token behind which so many are left, itself included: none at the line's end.
    Fault(Row, usize),
}

impl Stop {
    /// What is told of the line with this number.
    pub(crate) fn told(self, line: u32) -> TreeFault
        ensures memory { self ≡ Stop.Memory → result ≡ TreeFault.Memory }
        ensures fault { (row : Rows) (left : ℕ) → self ≡ Stop.Fault row left → result ≡ told row line }
    {
        match self {
            Stop::Memory => TreeFault::Memory,
            Stop::Fault(row, _) => row.told(line),
        }
    }
}

impl From<Memory> for Stop {
    ghost use Rattle.lburg_trees.specs.declared.stop.Stop.TheVariants as stop;

    ghost from_gives = { λ _ e. e ≡ stop.Memory };

    fn from(_: Memory) -> Self {
        Stop::Memory
    }
}

impl From<AllocError> for Stop {
    ghost use Rattle.lburg_trees.specs.declared.stop.Stop.TheVariants as stop;

    ghost from_gives = { λ _ e. e ≡ stop.Memory };

    fn from(_: AllocError) -> Self {
        Stop::Memory
    }
}
