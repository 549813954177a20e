//! Register sets, with which a target tells the registers that an instruction loses.
ghost use Rattle.std.specs.Prelude.{◌≡◌, ◌<◌, All, length};
ghost use Rattle.vcode.specs.RegisterSets.{has, with_all, none};

use crate::operand::Reg;
use std::marker::Model;

/// A set of a machine's registers, which contracts see as a list that tells for each of the 64
/// whether it is in the set.
#[derive(Clone, Copy, Debug, PartialEq, Eq)]
pub struct RegSet {
    members: [bool; 64],
}

impl Model for RegSet {
    ghost use Rattle.std.specs.Prelude.{List, Bool, ◌≡◌, length};

    ghost Value = { List Bool };

    ghost view = { λ s. s.members };

    ghost invariant = { λ s. length s.members ≡ 64 };

    ghost inverse = { λ m. record { members = m } };
}

impl RegSet {
    /// The set of these registers. It takes no memory.
    pub fn of(regs: &[Reg]) -> Self
        requires { All (λ r. r < 64) regs.now }
        ensures { result ≡ with_all none regs.now }
    {
        let mut members = [false; 64];
        for reg in regs {
            members[*reg as usize] = true;
        }
        RegSet { members }
    }

    /// Whether the register is in the set.
    pub fn contains(&self, reg: Reg) -> bool
        ensures { result ≡ has self.now reg }
    {
        reg < 64 && self.members[reg as usize]
    }
}
