//! Why a unit isn't lowered.

use lcc_base::Memory;
use thiserror::Error;

/// Why a unit isn't lowered.
#[derive(Clone, Copy, Debug, PartialEq, Eq, Error)]
pub enum LowerFault {
    /// The frame of the function of this place takes so many bytes, which are more than 1,048,576.
    #[error("the frame of function {function} takes {bytes} bytes")]
    FrameLimit { function: u32, bytes: u64 },
    /// The objects and texts take so many bytes, which are more than 16,777,216.
    #[error("the data takes {bytes} bytes")]
    DataLimit { bytes: u64 },
    /// An allocation was refused.
    #[error("an allocation was refused")]
    Memory,
    /// The function of this place has so many statements, expressions and parameters, which are more than
    /// 1,048,576.
    #[error("function {function} has {nodes} nodes")]
    NodeLimit { function: u32, nodes: u64 },
}

impl From<Memory> for LowerFault {
    ghost use Rattle.std.specs.Prelude.{◌≡◌};
    ghost use Rattle.lowering_limits.specs.declared.lower_fault.LowerFault.TheVariants.{Memory as NoMemory};

    ghost from_gives = { λ _ e. e ≡ NoMemory };

    fn from(_: Memory) -> Self {
        LowerFault::Memory
    }
}
