//! Instructions with other names. An instruction has one name at most.
ghost use Rattle.std.specs.Prelude.{◌≡◌, ◌++◌, ◌∷◌, [], OnOk, OnErr};
ghost use Rattle.asm_lines.specs.Statements.{address_with, target_with, instruction_with};
ghost use Rattle.asm_text.specs.Names.{name_in, target_names, names_of_instruction};

use asm_lines::{Address, Instruction, Target};
use lcc_base::Memory;

/// The name of a target, if it is one.
fn target_name<N: Copy>(target: &Target<N>) -> Option<N>
    ensures { name_in result ≡ target_names target.now }
{
    match target {
        Target::Label(name) => Some(*name),
        Target::Register(_) => None,
    }
}

/// The name in an instruction, if it has one.
pub(crate) fn name_of<N: Copy>(instruction: &Instruction<N>) -> Option<N>
    ensures { name_in result ≡ names_of_instruction instruction.now }
{
    match instruction {
        Instruction::LoadAddress(_, address) => address.name,
        Instruction::Load(_, _, address) => address.name,
        Instruction::Store(_, _, address) => address.name,
        Instruction::Branch(name) => Some(*name),
        Instruction::BranchIf(_, _, _, name) => Some(*name),
        Instruction::Jump(to) => target_name(to),
        Instruction::Call(to) => target_name(to),
        Instruction::LoadNumber(_, _) => None,
        Instruction::Move(_, _) => None,
        Instruction::Unary(_, _, _) => None,
        Instruction::Binary(_, _, _, _) => None,
    }
}

/// The address with this name, if it has one.
fn address_named<N: Copy, M: Copy>(address: &Address<N>, name: M) -> Address<M>
    ensures { result ≡ address_with (λ _. name) address.now }
{
    Address {
        name: match address.name {
            Some(_) => Some(name),
            None => None,
        },
        offset: address.offset,
        base: address.base,
    }
}

/// The target with this name, if it has one.
fn target_named<N: Copy, M: Copy>(target: &Target<N>, name: M) -> Target<M>
    ensures { result ≡ target_with (λ _. name) target.now }
{
    match target {
        Target::Label(_) => Target::Label(name),
        Target::Register(register) => Target::Register(*register),
    }
}

/// The instruction with this name, if it has one.
pub(crate) fn named<N: Copy, M: Copy>(instruction: &Instruction<N>, name: M) -> Instruction<M>
    ensures { result ≡ instruction_with (λ _. name) instruction.now }
{
    match instruction {
        Instruction::LoadAddress(d, at) => Instruction::LoadAddress(*d, address_named(at, name)),
        Instruction::LoadNumber(d, number) => Instruction::LoadNumber(*d, *number),
        Instruction::Move(d, s) => Instruction::Move(*d, *s),
        Instruction::Unary(op, d, s) => Instruction::Unary(*op, *d, *s),
        Instruction::Binary(op, d, s, t) => Instruction::Binary(*op, *d, *s, *t),
        Instruction::Load(op, d, at) => Instruction::Load(*op, *d, address_named(at, name)),
        Instruction::Store(op, s, at) => Instruction::Store(*op, *s, address_named(at, name)),
        Instruction::Branch(_) => Instruction::Branch(name),
        Instruction::BranchIf(condition, s, t, _) => Instruction::BranchIf(
            *condition, *s, *t, name,
        ),
        Instruction::Jump(to) => Instruction::Jump(target_named(to, name)),
        Instruction::Call(to) => Instruction::Call(target_named(to, name)),
    }
}

/// Adds the instruction with this name, if it has one. After an error all is as before.
pub(crate) fn push_named<N: Copy, M: Copy + Drop>(
    code: &mut Vec<Instruction<M>>,
    instruction: &Instruction<N>,
    name: M,
) -> Result<(), Memory>
    ensures ok { OnOk result (code.new.items ≡ code.old.items ++ instruction_with (λ _. name) instruction.now ∷ []) }
    ensures err { OnErr result (code.new.items ≡ code.old.items) }
{
    code.push(named(instruction, name))?;
    Ok(())
}
