//! Registers that an instruction may write without a check: all but `$0` and `$29`.
ghost use Rattle.std.specs.Prelude.{◌≡◌, ◌≢◌, ◌<◌, IfSome};

use asm_text::Register;
use std::marker::Model;

/// A register that takes any word: neither `$0`, which stays 0, nor `$29`, which stays in the stack. Contracts see its
/// number.
#[derive(Clone, Copy, Debug, PartialEq, Eq)]
pub struct FreeRegister {
    number: u8,
}

impl Model for FreeRegister {
    ghost use Rattle.std.specs.Prelude.{◌≢◌, ◌<◌, ℕ};

    ghost Value = { ℕ };

    ghost view = { λ r. r.number };

    ghost invariant = { λ r. (r.number < 32) × (r.number ≢ 0) × (r.number ≢ 29) };

    ghost inverse = { λ n. record { number = n } };
}

impl FreeRegister {
    /// The register, none where it is `$0` or `$29`.
    pub fn new(r: Register) -> Option<Self>
        ensures { IfSome result (λ free. free ≡ r) }
    {
        let number = r.number();
        if number == 0 || number == 29 {
            None
        } else {
            Some(FreeRegister { number })
        }
    }

    /// Its number.
    pub fn number(self) -> u8
        ensures is { result ≡ self }
        ensures within { result < 32 }
        ensures unlike_zero { result ≢ 0 }
        ensures unlike_stack { result ≢ 29 }
    {
        self.number
    }
}
