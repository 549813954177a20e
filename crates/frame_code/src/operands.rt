//! The operands of an instruction, and their renaming.
ghost use Rattle.std.specs.Prelude.{◌≡◌, [], ◌∷◌, slice_get};
ghost use Rattle.vcode.specs.Machines.{reads_one, writes_one};
ghost use Rattle.frame_code.specs.Instructions.{operands, source_operands, rename, with_source};

use crate::instr::{Instr, Source};
use vcode::{Operand, Reg};

/// The register as an operand that is read.
fn read(reg: Reg) -> Operand
    ensures { result ≡ reads_one reg }
{
    Operand {
        reg,
        written: false,
    }
}

/// The register as an operand that is written.
fn written(reg: Reg) -> Operand
    ensures { result ≡ writes_one reg }
{
    Operand { reg, written: true }
}

/// The operand, where it is the first one.
fn alone(operand: Operand, n: usize) -> Option<Operand>
    ensures { result ≡ slice_get (operand ∷ []) n }
{
    if n == 0 { Some(operand) } else { None }
}

/// Operand n of an instruction that writes one register and reads another.
fn of_two(to: Reg, from: Reg, n: usize) -> Option<Operand>
    ensures { result ≡ slice_get (writes_one to ∷ reads_one from ∷ []) n }
{
    match n {
        0 => Some(written(to)),
        1 => Some(read(from)),
        _ => None,
    }
}

/// Operand n of an operation.
fn of_three(to: Reg, from: Reg, operand: Source, n: usize) -> Option<Operand>
    ensures { result ≡ slice_get (writes_one to ∷ reads_one from ∷ source_operands operand) n }
{
    match (n, operand) {
        (0, _) => Some(written(to)),
        (1, _) => Some(read(from)),
        (2, Source::Register(reg)) => Some(read(reg)),
        _ => None,
    }
}

/// Operand n of the instruction, from 0.
pub fn operand_of(i: Instr, n: usize) -> Option<Operand>
    ensures { result ≡ slice_get (operands i) n }
{
    match i {
        Instr::LoadNumber { to, number: _ } => alone(written(to), n),
        Instr::Binary {
            op: _,
            to,
            from,
            operand,
        } => of_three(to, from, operand, n),
        Instr::Negate { to, from } => of_two(to, from, n),
        Instr::Argument { from } => alone(read(from), n),
        Instr::Call { to, name: _ } => alone(written(to), n),
        Instr::Return { from } => alone(read(from), n),
        Instr::Copy { to, from } => of_two(to, from, n),
        Instr::LoadSlot { to, slot: _ } => alone(written(to), n),
        Instr::StoreSlot { from, slot: _ } => alone(read(from), n),
    }
}

/// The last operand of an operation, where the register in it is this one.
fn source_with(operand: Source, reg: Reg) -> Source
    ensures { result ≡ with_source operand reg }
{
    match operand {
        Source::Register(_) => Source::Register(reg),
        Source::Number(number) => Source::Number(number),
    }
}

/// The instruction where operand n, from 0, has this register.
pub fn renamed(i: Instr, n: usize, reg: Reg) -> Instr
    ensures { result ≡ rename i n reg }
{
    match i {
        Instr::LoadNumber { to: _, number } => Instr::LoadNumber { to: reg, number },
        Instr::Binary {
            op,
            to,
            from,
            operand,
        } => Instr::Binary {
            op,
            to: if n == 0 { reg } else { to },
            from: if n == 1 { reg } else { from },
            operand: if n >= 2 {
                source_with(operand, reg)
            } else {
                operand
            },
        },
        Instr::Negate { to, from } => Instr::Negate {
            to: if n == 0 { reg } else { to },
            from: if n >= 1 { reg } else { from },
        },
        Instr::Argument { from: _ } => Instr::Argument { from: reg },
        Instr::Call { to: _, name } => Instr::Call { to: reg, name },
        Instr::Return { from: _ } => Instr::Return { from: reg },
        Instr::Copy { to, from } => Instr::Copy {
            to: if n == 0 { reg } else { to },
            from: if n >= 1 { reg } else { from },
        },
        Instr::LoadSlot { to: _, slot } => Instr::LoadSlot { to: reg, slot },
        Instr::StoreSlot { from: _, slot } => Instr::StoreSlot { from: reg, slot },
    }
}
