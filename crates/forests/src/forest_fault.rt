//! The faults of forests that aren't well formed.
ghost use Rattle.std.specs.Prelude.{◌≡◌};

use lcc_base::Memory;
use thiserror::Error;

/// What is wrong with a forest. The first four name the first bad root by its place, from 0; at one
/// root the earlier of them is answered.
#[derive(Clone, Copy, Debug, PartialEq, Eq, Error)]
pub enum ForestFault {
    /// An operator has another number of operands than its row.
    #[error("root {root}: an operator has another number of operands")]
    Arity { root: usize },
    /// An operator is none of the 69, or has an operand, symbol or constant that doesn't fit it; or no
    /// call takes an argument.
    #[error("root {root}: an operator, operand, symbol, constant or argument doesn't fit")]
    Kind { root: usize },
    /// A jump goes to no label, or a label stands for the second time.
    #[error("root {root}: no such label, or it stands twice")]
    Label { root: usize },
    /// An offset lies in no slot.
    #[error("root {root}: an offset lies in no slot")]
    Slot { root: usize },
    /// An allocation was refused.
    #[error("an allocation was refused")]
    Memory,
}

impl From<Memory> for ForestFault {
    ghost use Rattle.forests.specs.declared.forest_fault.ForestFault.TheVariants as fault;

    ghost from_gives = { λ _ e. e ≡ fault.Memory };

    fn from(_: Memory) -> Self {
        ForestFault::Memory
    }
}
