//! The reasons for which a reader of C's grammar stops without a tree.
ghost use Rattle.std.specs.Prelude.{◌≡◌};
ghost use Rattle.c_expr.specs.declared.stop.Stop.TheVariants.{Memory as NoMemory};

use lcc_base::Memory;
use std::alloc::AllocFailed;

/// Why a reader stopped.
#[derive(Clone, Copy, Debug, PartialEq, Eq)]
pub(crate) enum Stop {
    /// No piece stands there that is low enough.
    NoParse {
        /// How many tokens were left.
        left: usize,
    },
    /// An allocation was refused.
    Memory,
}

impl Stop {
    /// The same for a reader that stopped no later than before so many tokens.
    pub(crate) fn no_later(self, many: usize) -> Stop
        ensures { self ≡ NoMemory → result ≡ NoMemory }
    {
        match self {
            Stop::NoParse { left } => Stop::NoParse {
                left: left.max(many),
            },
            Stop::Memory => Stop::Memory,
        }
    }
}

impl From<Memory> for Stop {
    ghost use Rattle.std.specs.Prelude.{◌≡◌};
    ghost use Rattle.c_expr.specs.declared.stop.Stop.TheVariants.{Memory};

    ghost from_gives = { λ _ e. e ≡ Memory };

    fn from(_: Memory) -> Self {
        Stop::Memory
    }
}

impl<T: Drop> From<AllocFailed<T>> for Stop {
    ghost use Rattle.std.specs.Prelude.{◌≡◌};
    ghost use Rattle.c_expr.specs.declared.stop.Stop.TheVariants.{Memory};

    ghost from_gives = { λ _ e. e ≡ Memory };

    fn from(_: AllocFailed<T>) -> Self {
        Stop::Memory
    }
}
