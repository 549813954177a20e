//! The faults of a store: undefined behaviour, or an allocation that was refused.
use lcc_base::{Cause, Memory};
use thiserror::Error;

/// Why bytes of an object aren't stored.
#[derive(Clone, Copy, Debug, PartialEq, Eq, Error)]
pub enum StoreFault {
    /// The program's behaviour is undefined.
    #[error("the behaviour is undefined")]
    Undefined(Cause),
    /// An allocation was refused.
    #[error("an allocation was refused")]
    Memory,
}

impl From<Cause> for StoreFault {
    ghost use Rattle.std.specs.Prelude.{◌≡◌};
    ghost use Rattle.objects.specs.declared.store_fault.StoreFault.TheVariants.{Undefined};

    ghost from_gives = { λ cause e. e ≡ Undefined cause };

    fn from(cause: Cause) -> Self {
        StoreFault::Undefined(cause)
    }
}

impl From<Memory> for StoreFault {
    ghost use Rattle.std.specs.Prelude.{◌≡◌};
    ghost use Rattle.objects.specs.declared.store_fault.StoreFault.TheVariants.{Memory as NoMemory};

    ghost from_gives = { λ _ e. e ≡ NoMemory };

    fn from(_: Memory) -> Self {
        StoreFault::Memory
    }
}
