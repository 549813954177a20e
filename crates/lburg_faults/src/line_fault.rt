//! The faults that a single line of a description can have, before they are told with its number.
ghost use Rattle.std.specs.Prelude.{◌≡◌};
ghost use Rattle.lburg_faults.specs.FirstFault.{told};

use crate::desc_fault::DescFault;
use lcc_base::Which;

/// A fault of a line of a description.
#[derive(Clone, Copy, Debug, PartialEq, Eq)]
pub enum LineFault {
    /// The bytes form no token.
    BadToken,
    /// The tokens don't follow the grammar.
    BadRule,
    /// A name with operands isn't a terminal.
    UnknownTerminal,
    /// A terminal's name or number is declared again.
    DoubleTerminal,
    /// A terminal is used with another number of operands than at its first use.
    ArityDiffers,
    /// The rest of a rule's line isn't a cost.
    CostForm,
    /// A decimal cost is above 32,766.
    CostTooLarge,
    /// A limit is passed.
    Limit(Which),
}

impl LineFault {
    /// The fault of the line with this number.
    pub(crate) fn told(self, line: u32) -> DescFault
        ensures { result ≡ told self line }
    {
        match self {
            LineFault::BadToken => DescFault::BadToken { line },
            LineFault::BadRule => DescFault::BadRule { line },
            LineFault::UnknownTerminal => DescFault::UnknownTerminal { line },
            LineFault::DoubleTerminal => DescFault::DoubleTerminal { line },
            LineFault::ArityDiffers => DescFault::ArityDiffers { line },
            LineFault::CostForm => DescFault::CostForm { line },
            LineFault::CostTooLarge => DescFault::CostTooLarge { line },
            LineFault::Limit(which) => DescFault::Limit { line, which },
        }
    }
}
