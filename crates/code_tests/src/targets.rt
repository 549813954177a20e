//! The shipped target by callers that know no target, and the shipped rules by one that knows no rules.
use frame_code::{Arithmetic, Instr, Source};
use lburg_model::Description;
use mips_rules::{Mips, MipsRules, rules};
use std::test::Fail;
use vcode::{Operand, Reg, RuleSet, Target};

/// The three operands of an instruction.
fn operands<T: Target>(target: &T, i: &T::Instr) -> [Option<Operand>; 3] {
    [
        target.operand(i, 0),
        target.operand(i, 1),
        target.operand(i, 2),
    ]
}

/// Gives an instruction's last operand this register, where it has three.
fn rename_last<T: Target>(target: &T, i: &mut T::Instr, reg: Reg) {
    if target.operand(i, 2).is_some() {
        target.set_operand(i, 2, reg);
    }
}

/// Whether the instruction loses the register.
fn is_lost<T: Target>(target: &T, i: &T::Instr, reg: Reg) -> bool {
    target.lost(i).contains(reg)
}

/// A slot load, a slot store and a copy.
fn moves<T: Target>(target: &T) -> [T::Instr; 3] {
    [
        target.load_slot(8, -4),
        target.store_slot(9, -8),
        target.copy(10, 11),
    ]
}

/// A difference of two registers.
fn difference(from: Reg, other: Reg) -> Instr {
    Instr::Binary {
        op: Arithmetic::Subtract,
        to: 64,
        from,
        operand: Source::Register(other),
    }
}

fn operand(reg: Reg, written: bool) -> Option<Operand> {
    Some(Operand { reg, written })
}

#[test]
fn operands_are_named(rt: HostRuntime) {
    let mut i = difference(65, 66);
    assert_eq!(rt;
        operands(&Mips, &i),
        [operand(64, true), operand(65, false), operand(66, false)]
    );
    rename_last(&Mips, &mut i, 73);
    assert_eq!(rt; i, difference(65, 73));
}

#[test]
fn calls_lose_registers(rt: HostRuntime) {
    let call = Instr::Call { to: 64, name: 0 };
    assert_eq!(rt;
        (is_lost(&Mips, &call, 15), is_lost(&Mips, &call, 16)),
        (true, false)
    );
    assert!(rt; !is_lost(&Mips, &difference(65, 66), 15));
}

#[test]
fn registers_are_moved(rt: HostRuntime) {
    assert_eq!(rt;
        moves(&Mips),
        [
            Instr::LoadSlot { to: 8, slot: -4 },
            Instr::StoreSlot { from: 9, slot: -8 },
            Instr::Copy { to: 10, from: 11 },
        ]
    );
}

/// The description of a rule set.
fn described<T: Target, R: RuleSet<T>>(rules: &R) -> &Description {
    rules.description()
}

#[test]
fn rules_are_shipped(rt: HostRuntime) -> Result<(), Fail> {
    let rules = rules(rt.alloc())?;
    let d = described::<Mips, MipsRules>(&rules);
    assert_eq!(rt; (d.terminals().len(), d.rules().len()), (69, 13));
    assert_eq!(rt; d.operator_name(39), b"ADDI".as_slice());
    Ok(())
}
