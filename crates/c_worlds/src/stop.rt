//! The causes that stop a run, with the lines at which they arise.
ghost use Rattle.std.specs.Prelude.{◌≡◌};
ghost use Rattle.c_worlds.specs.Stops.{stop_of, told};

use lcc_base::{Cause, Memory};
use objects::StoreFault;
use std::alloc::AllocError;
use thiserror::Error;

/// Why a run can't go on.
#[derive(Clone, Copy, Debug, PartialEq, Eq, Error)]
pub enum Stop {
    /// The program's behaviour is undefined, for a cause at a line.
    #[error("the behaviour is undefined")]
    Undefined(Cause, u32),
    /// An allocation was refused.
    #[error("an allocation was refused")]
    Memory,
}

impl From<Memory> for Stop {
    ghost use Rattle.std.specs.Prelude.{◌≡◌};
    ghost use Rattle.c_worlds.specs.declared.stop.Stop.TheVariants.{Memory as NoMemory};

    ghost from_gives = { λ _ e. e ≡ NoMemory };

    fn from(_: Memory) -> Self {
        Stop::Memory
    }
}

impl From<AllocError> for Stop {
    ghost use Rattle.std.specs.Prelude.{◌≡◌};
    ghost use Rattle.c_worlds.specs.declared.stop.Stop.TheVariants.{Memory as NoMemory};

    ghost from_gives = { λ _ e. e ≡ NoMemory };

    fn from(_: AllocError) -> Self {
        Stop::Memory
    }
}

/// What was checked, with the line for its cause.
pub fn at_line<T>(line: u32, checked: Result<T, Cause>) -> Result<T, Stop>
    ensures { result ≡ told line checked }
{
    match checked {
        Ok(value) => Ok(value),
        Err(cause) => Err(Stop::Undefined(cause, line)),
    }
}

/// What came of a store, with the line for its cause.
pub fn store_at_line(line: u32, stored: Result<(), StoreFault>) -> Result<(), Stop>
    ensures { result ≡ stop_of line stored }
{
    match stored {
        Ok(()) => Ok(()),
        Err(StoreFault::Undefined(cause)) => Err(Stop::Undefined(cause, line)),
        Err(StoreFault::Memory) => Err(Stop::Memory),
    }
}
