//! Targets: what a machine's instructions read, write and lose, and how registers are spilled.
ghost use Rattle.std.specs.Prelude.{◌≡◌, ℕ, ◌<◌, ◌≤◌, length, slice_get};
ghost use Rattle.vcode.specs.Machines.{Machine};
ghost use Rattle.vcode.specs.RegisterSets.{has};

use crate::operand::{Operand, Reg};
use crate::register_set::RegSet;

/// A target: its instructions, and what they read, write, lose and do.
/// Source: Fraser and Hanson, A Retargetable C Compiler, chapters 13 and 15.
pub trait Target {
    type Instr: Drop;

    /// What the instructions do, and the laws that they keep.
    ghost machine: { Machine Self.Instr };

    /// Operand n of the instruction, from 0; an instruction has at most three.
    fn operand(&self, i: &Self::Instr, n: usize) -> Option<Operand>
        requires { n ≤ 2 }
        ensures { result ≡ slice_get (machine.operands i.now) n };

    /// Gives operand n this register. The other operands stay.
    fn set_operand(&self, i: &mut Self::Instr, n: usize, reg: Reg)
        requires { n < length (machine.operands i.old) }
        ensures { i.new ≡ machine.rename i.old n reg };

    /// The machine registers that the instruction leaves unknown.
    fn lost(&self, i: &Self::Instr) -> RegSet
        ensures { (r : ℕ) → has result r ≡ machine.loses i.now r };

    /// An instruction that puts the slot's value into the register.
    fn load_slot(&self, reg: Reg, slot: i32) -> Self::Instr
        ensures { result ≡ machine.load reg slot };

    /// An instruction that puts the register's value into the slot.
    fn store_slot(&self, reg: Reg, slot: i32) -> Self::Instr
        ensures { result ≡ machine.store reg slot };

    /// An instruction that puts the value of `from` into `to`.
    fn copy(&self, to: Reg, from: Reg) -> Self::Instr
        ensures { result ≡ machine.copy to from };
}
