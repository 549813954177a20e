//! What stops a command on its text, and the refusals that stand for the readers' faults.
ghost use Rattle.std.specs.Prelude.{◌≡◌};
ghost use Rattle.lburg_tool.specs.TextFaults.{of_description, of_trees};
ghost use Rattle.lburg_tool.specs.declared.text_fault.TextFault.TheVariants as fault;

use lburg_grammar::{DescFault, TreeFault};
use lcc_base::{Memory, Which};
use outcomes::{FaultName, Refusal};
use thiserror::Error;

/// Why nothing is made of a text.
#[derive(Debug, PartialEq, Eq, Drop, Error)]
pub(crate) enum TextFault {
    /// It is refused.
    #[error("the text is refused")]
    Refused(Refusal),
    /// An allocation was refused.
    #[error("an allocation was refused")]
    Memory,
}

/// The refusal of a fault in a line.
fn at(line: u32, name: FaultName) -> TextFault
    ensures { result ≡ fault.Refused (Refusal.Fault line name) }
{
    TextFault::Refused(Refusal::Fault { line, name })
}

/// The refusal of a limit that is passed in a line.
fn past(line: u32, which: Which) -> TextFault
    ensures { result ≡ fault.Refused (Refusal.Limit line which) }
{
    TextFault::Refused(Refusal::Limit { line, which })
}

impl From<Memory> for TextFault {
    ghost from_gives = { λ _ e. e ≡ fault.Memory };

    fn from(_: Memory) -> Self {
        TextFault::Memory
    }
}

impl From<DescFault> for TextFault {
    ghost from_gives = { λ why e. e ≡ of_description why };

    fn from(why: DescFault) -> Self {
        match why {
            DescFault::BadToken { line } => at(line, FaultName::BadToken),
            DescFault::BadRule { line } => at(line, FaultName::BadRule),
            DescFault::UnknownTerminal { line } => at(line, FaultName::UnknownTerminal),
            DescFault::DoubleTerminal { line } => at(line, FaultName::DoubleTerminal),
            DescFault::ArityDiffers { line } => at(line, FaultName::ArityDiffers),
            DescFault::UnknownNonterminal { line } => at(line, FaultName::UnknownNonterminal),
            DescFault::CostForm { line } => at(line, FaultName::CostForm),
            DescFault::CostTooLarge { line } => at(line, FaultName::CostTooLarge),
            DescFault::Limit { line, which } => past(line, which),
            DescFault::Memory => TextFault::Memory,
        }
    }
}

impl From<TreeFault> for TextFault {
    ghost from_gives = { λ why e. e ≡ of_trees why };

    fn from(why: TreeFault) -> Self {
        match why {
            TreeFault::BadTree { line } => at(line, FaultName::BadTree),
            TreeFault::UnknownOp { line } => at(line, FaultName::UnknownOp),
            TreeFault::WrongArity { line } => at(line, FaultName::WrongArity),
            TreeFault::TooLarge { line } => past(line, Which::Nodes),
            TreeFault::TooHigh { line } => past(line, Which::Height),
            TreeFault::Memory => TextFault::Memory,
        }
    }
}
