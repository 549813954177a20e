//! The 32 general registers of MIPS by their numbers.
ghost use Rattle.std.specs.Prelude.{◌≡◌, ◌<◌, IfSome, IfNone, ◌≤◌};

use std::marker::Model;

/// A register, which contracts see as its number, 0 to 31.
#[derive(Clone, Copy, Debug, PartialEq, Eq)]
pub struct Register {
    number: u8,
}

impl Model for Register {
    ghost use Rattle.std.specs.Prelude.{ℕ, ◌<◌};

    ghost Value = { ℕ };

    ghost view = { λ r. r.number };

    ghost invariant = { λ r. r.number < 32 };

    ghost inverse = { λ n. record { number = n } };
}

impl Register {
    /// The register of this number, none where it is 32 or above.
    pub fn new(number: u8) -> Option<Self>
        ensures some { IfSome result (λ r. (r ≡ number) × (number < 32)) }
        ensures none { IfNone result (32 ≤ number) }
    {
        if number < 32 {
            Some(Register { number })
        } else {
            None
        }
    }

    /// Its number, 0 to 31.
    pub fn number(self) -> u8
        ensures is { result ≡ self }
        ensures within { result < 32 }
    {
        self.number
    }
}
