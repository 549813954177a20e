//! The faults of a description's text, with their lines.
ghost use Rattle.std.specs.Prelude.{◌≡◌};

use lcc_base::Which;
use std::alloc::{AllocError, AllocFailed};
use thiserror::Error;

/// Why a description was not read. Lines count from 1.
#[derive(Clone, Copy, Debug, PartialEq, Eq, Error)]
pub enum DescFault {
    /// The bytes form no token here: as a template without its closing quote or with a wrong
    /// backslash, a lone minus sign, or another percent sign than those of `%start` and `%term`.
    #[error("line {line}: BadToken")]
    BadToken { line: u32 },
    /// The tokens don't follow the grammar; a second `%start`; a terminal as left side or start symbol; no `%%` or
    /// no rule, at the last line.
    #[error("line {line}: BadRule")]
    BadRule { line: u32 },
    /// A name with operands isn't a terminal.
    #[error("line {line}: UnknownTerminal")]
    UnknownTerminal { line: u32 },
    /// A terminal's name or number is declared again.
    #[error("line {line}: DoubleTerminal")]
    DoubleTerminal { line: u32 },
    /// A terminal is used with another number of operands than at its first use.
    #[error("line {line}: ArityDiffers")]
    ArityDiffers { line: u32 },
    /// A nonterminal in a pattern has no rule, or the start symbol has none. Told only where no other fault stands.
    #[error("line {line}: UnknownNonterminal")]
    UnknownNonterminal { line: u32 },
    /// The rest of a rule's line isn't a cost.
    #[error("line {line}: CostForm")]
    CostForm { line: u32 },
    /// A decimal cost is above 32,766.
    #[error("line {line}: CostTooLarge")]
    CostTooLarge { line: u32 },
    /// More terminals, nonterminals, rules or nodes of a pattern than there may be, or too great a number of a terminal.
    #[error("line {line}: limit")]
    Limit { line: u32, which: Which },
    /// An allocation was refused.
    #[error("an allocation was refused")]
    Memory,
}

impl From<AllocError> for DescFault {
    ghost use Rattle.lburg_faults.specs.declared.desc_fault.DescFault.TheVariants as fault;

    ghost from_gives = { λ _ e. e ≡ fault.Memory };

    fn from(_: AllocError) -> Self {
        DescFault::Memory
    }
}

impl<T: Drop> From<AllocFailed<T>> for DescFault {
    ghost use Rattle.lburg_faults.specs.declared.desc_fault.DescFault.TheVariants as fault;

    ghost from_gives = { λ _ e. e ≡ fault.Memory };

    fn from(_: AllocFailed<T>) -> Self {
        DescFault::Memory
    }
}
