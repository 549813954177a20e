//! Register allocation by spilling: each virtual register has a stack slot of its own.
ghost use Rattle.std.specs.Prelude.{◌≡◌, ℕ, ◌+◌, ◌-◌, ◌<◌, ◌≤◌, ◌^◌, ◌++◌, ◌∷◌, [], length, IfOk, OnOk};
ghost use Rattle.vcode.specs.VirtualCode.{AreBelow};
ghost use Rattle.slot_allocator.specs.Slots.{slot_of, is_loaded, is_stored, loads, stores, renamed, spilled, allotted, AreTemporaries, NamesKept};
ghost use Rattle.vcode.specs.SlotsBelow.{UsesSlotsBelow};
ghost use Rattle.slot_allocator.specs.SlotCounts.{slots_for, slots_needed, virtual_operands};
ghost use Rattle.vcode.specs.Allocation.{IsAllocation};
ghost use Rattle.vcode.specs.Following.{Follows};

use lcc_base::{Items, Memory};
use std::alloc::Global;
use vcode::{Code, Operand, Reg, Target, VCode};

/// Code that does what the virtual code does, with a spill slot of its own for each virtual
/// register: register r has slot r - 64. An instruction's virtual operands are held in the three
/// temporaries, operand n in temporary n. `Memory` comes where an allocation is refused; the code is
/// given up then.
/// Source: Fraser and Hanson, A Retargetable C Compiler, chapter 15 (spilling).
pub fn give_slots<T: Target>(
    alloc: Global,
    target: &T,
    code: VCode<T>,
    temporaries: &[Reg],
) -> Result<Code<T>, Memory>
    requires three { length temporaries.now ≡ 3 }
    requires temporaries { AreTemporaries T.machine temporaries.now }
    requires names { NamesKept T.machine temporaries.now code.code }
    ensures code { IfOk result (λ c. c.code ≡ allotted T.machine temporaries.now code.code) }
    ensures slots { IfOk result (λ c. c.slots ≡ slots_needed T.machine code.code) }
    ensures fits { IfOk result (λ c. UsesSlotsBelow T.machine c.slots c.code) }
    ensures added { IfOk result (λ c. length c.code ≡ length code.code + virtual_operands T.machine code.code) }
    ensures form { IfOk result (λ c. IsAllocation T.machine temporaries.now code.code c.code) }
    ensures agrees { IfOk result (λ c. Follows T.machine temporaries.now code.code c.code) }
{
    let mut into = Items::new(alloc);
    let mut slots = 0;
    for instr in code.into_code().into_vec() {
        let operands = operands_of(alloc, target, &instr)?;
        slots = slots.max(slots_for(&operands));
        push_loads(target, &operands, temporaries, &mut into)?;
        into.push(renamed(target, instr, &operands, temporaries))?;
        push_stores(target, &operands, temporaries, &mut into)?;
    }
    Ok(Code::new(into, slots))
}

// The operands of the instruction, in order.
fn operands_of<T: Target>(
    alloc: Global,
    target: &T,
    instr: &T::Instr,
) -> Result<Vec<Operand>, Memory>
    ensures { IfOk result (λ os. os.items ≡ T.machine.operands instr.now) }
{
    let mut operands = Vec::with_capacity(alloc, 3)?;
    for n in 0..3 {
        let Some(operand) = target.operand(instr, n) else {
            break;
        };
        operands.push(operand)?;
    }
    Ok(operands)
}

// How many slots there are up to the greatest virtual register.
fn slots_for(operands: &[Operand]) -> u32
    ensures { result ≡ slots_for operands.now }
{
    let mut slots = 0;
    for operand in operands {
        slots = slots.max(operand.reg.saturating_sub(63));
    }
    slots
}

// Whether it is a virtual register that is read.
fn is_loaded(operand: &Operand) -> bool
    ensures { result ≡ is_loaded operand.now }
{
    operand.reg >= 64 && !operand.written
}

// Whether it is a virtual register that is written.
fn is_stored(operand: &Operand) -> bool
    ensures { result ≡ is_stored operand.now }
{
    operand.reg >= 64 && operand.written
}

// The slot of a virtual register.
fn slot_of(reg: Reg) -> i32
    requires from { 64 ≤ reg }
    requires below { reg < 2 ^ 31 }
    ensures { result ≡ slot_of reg }
{
    (reg - 64) as i32
}

// Adds the loads of the virtual operands that are read.
fn push_loads<T: Target>(
    target: &T,
    operands: &[Operand],
    temporaries: &[Reg],
    into: &mut Items<T::Instr>,
) -> Result<(), Memory>
    requires temporaries { length operands.now ≤ length temporaries.now }
    requires below { AreBelow (2 ^ 31) operands.now }
    ensures { OnOk result (into.new ≡ into.old ++ loads T.machine temporaries.now operands.now) }
{
    for (n, operand) in operands.iter().enumerate() {
        if is_loaded(operand) {
            into.push(target.load_slot(temporaries[n], slot_of(operand.reg)))?;
        }
    }
    Ok(())
}

// Adds the stores of the virtual operands that are written.
fn push_stores<T: Target>(
    target: &T,
    operands: &[Operand],
    temporaries: &[Reg],
    into: &mut Items<T::Instr>,
) -> Result<(), Memory>
    requires temporaries { length operands.now ≤ length temporaries.now }
    requires below { AreBelow (2 ^ 31) operands.now }
    ensures { OnOk result (into.new ≡ into.old ++ stores T.machine temporaries.now operands.now) }
{
    for (n, operand) in operands.iter().enumerate() {
        if is_stored(operand) {
            into.push(target.store_slot(temporaries[n], slot_of(operand.reg)))?;
        }
    }
    Ok(())
}

// The instruction with temporaries in place of its virtual operands.
fn renamed<T: Target>(
    target: &T,
    instr: T::Instr,
    operands: &[Operand],
    temporaries: &[Reg],
) -> T::Instr
    requires temporaries { length operands.now ≤ length temporaries.now }
    requires operands { operands.now ≡ T.machine.operands instr }
    ensures { result ≡ renamed T.machine 0 temporaries.now operands.now instr }
{
    let mut instr = instr;
    for (n, operand) in operands.iter().enumerate() {
        if operand.reg >= 64 {
            target.set_operand(&mut instr, n, temporaries[n]);
        }
    }
    instr
}
