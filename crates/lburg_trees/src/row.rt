//! The faults that a single line of trees can have, before they are told with its number.
ghost use Rattle.std.specs.Prelude.{◌≡◌};
ghost use Rattle.lburg_trees.specs.FirstFault.{told};

use crate::tree_fault::TreeFault;

/// A fault of a line of a tail.
#[derive(Clone, Copy, Debug, PartialEq, Eq)]
pub enum Row {
    /// The line is neither blank nor a tree.
    BadTree,
    /// A name isn't a terminal's.
    UnknownOp,
    /// An operator has another number of operands than the rules use it with.
    WrongArity,
    /// A tree has more than 65,535 nodes.
    TooLarge,
    /// A parenthesis opens while 499 are open.
    TooHigh,
}

impl Row {
    /// The fault of the line with this number.
    pub(crate) fn told(self, line: u32) -> TreeFault
        ensures { result ≡ told self line }
    {
        match self {
            Row::BadTree => TreeFault::BadTree { line },
            Row::UnknownOp => TreeFault::UnknownOp { line },
            Row::WrongArity => TreeFault::WrongArity { line },
            Row::TooLarge => TreeFault::TooLarge { line },
            Row::TooHigh => TreeFault::TooHigh { line },
        }
    }
}
