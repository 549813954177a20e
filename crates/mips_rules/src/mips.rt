//! MIPS as a target of register allocation: operands, clobbers at calls, spills and copies.
use frame_code::{Instr, operand_of, renamed};
use vcode::{Operand, Reg, RegSet, Target};

/// The registers that a call leaves unknown: `$1` to `$15`, `$24` and `$25` are those that a called
/// function needn't save, and `$31` gets the place to return to.
const LOST_AT_CALLS: [Reg; 18] = [
    1, 2, 3, 4, 5, 6, 7, 8, 9, 10, 11, 12, 13, 14, 15, 24, 25, 31,
];

/// The target MIPS R3000, in either byte order.
/// Source: Fraser and Hanson, A Retargetable C Compiler, chapter 16.
#[derive(Clone, Copy, Debug, PartialEq, Eq)]
pub struct Mips;

impl Target for Mips {
    ghost use Rattle.mips_rules.specs.Mips.{mips};

    type Instr = Instr;

    ghost machine = { mips };

    fn operand(&self, i: &Instr, n: usize) -> Option<Operand> {
        operand_of(*i, n)
    }

    fn set_operand(&self, i: &mut Instr, n: usize, reg: Reg) {
        *i = renamed(*i, n, reg);
    }

    fn lost(&self, i: &Instr) -> RegSet {
        match i {
            Instr::Call { to: _, name: _ } => RegSet::of(&LOST_AT_CALLS),
            _ => RegSet::of(&[]),
        }
    }

    fn load_slot(&self, reg: Reg, slot: i32) -> Instr {
        Instr::LoadSlot { to: reg, slot }
    }

    fn store_slot(&self, reg: Reg, slot: i32) -> Instr {
        Instr::StoreSlot { from: reg, slot }
    }

    fn copy(&self, to: Reg, from: Reg) -> Instr {
        Instr::Copy { to, from }
    }
}
