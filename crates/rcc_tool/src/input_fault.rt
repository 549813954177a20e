//! The faults of an input that a command can't make anything of.
ghost use Rattle.std.specs.Prelude.{◌≡◌};
ghost use Rattle.rcc_tool.specs.InputFaults.{of_program};
ghost use Rattle.rcc_tool.specs.declared.input_fault.InputFault.TheVariants as fault;

use first_form::FirstFault;
use lcc_base::Memory;
use thiserror::Error;

/// Why a command made nothing of its input.
#[derive(Clone, Copy, Debug, PartialEq, Eq, Error)]
pub(crate) enum InputFault {
    /// The input isn't of the command's form.
    #[error("the input isn't of the command's form")]
    BadText,
    /// An allocation was refused.
    #[error("an allocation was refused")]
    Memory,
}

impl From<Memory> for InputFault {
    ghost from_gives = { λ _ e. e ≡ fault.Memory };

    fn from(_: Memory) -> Self {
        InputFault::Memory
    }
}

impl From<FirstFault> for InputFault {
    ghost from_gives = { λ why e. e ≡ of_program why };

    fn from(why: FirstFault) -> Self {
        match why {
            FirstFault::BadText => InputFault::BadText,
            FirstFault::Memory => InputFault::Memory,
        }
    }
}
