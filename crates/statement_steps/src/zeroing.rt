//! Zeros in an object: one by one, or by a loop where they are more than four.
ghost use Rattle.std.specs.Prelude.{◌≡◌, ◌+ℤ◌, pos, false, true, IfOk, OnOk};
ghost use Rattle.c_rows_agree.specs.Integers.{binary_of, compared, number};
ghost use Rattle.c_rows_agree.specs.Places.{stored_as};
ghost use Rattle.c_pointers_agree.specs.Pointers.{moved};
ghost use Rattle.lowered_forms.specs.Lows.{acted, branched};
ghost use Rattle.lowered_forms.specs.Places as places;
ghost use Rattle.lowered_forms.specs.Values.{slot_read, stored_in};
ghost use Rattle.lowered_statements.specs.Zeroing as zeros;
ghost use Rattle.lowering_steps.specs.Asking.{Acts};
ghost use Rattle.lowering_steps.specs.Operands.{typed_of};
ghost use Rattle.objects.specs.Values.{bytes_in};
ghost use Rattle.statement_steps.specs.Progresses.{Goes};

use crate::numbers::{product, sum};
use lcc_base::Memory;
use lowering_steps::{Jump, OpenBlock, Operand, Source, State};
use objects::{Binary, Comparison, Width};
use op_forest::{Op, Suffix};

/// So many zeros of a width are stored one by one.
const FEW: u32 = 4;

/// The place so many bytes behind the beginning of a local. `Memory` comes where it is no local, or no number of 32 bits says it.
pub(crate) fn further(by: u32, base: Operand) -> Result<Operand, Memory>
    ensures { IfOk result (λ v. typed_of v ≡ places.further true by (typed_of base)) }
{
    let Source::Leaf(stem) = base.source else {
        return Err(Memory);
    };
    match (stem.operator.op, stem.value) {
        (Op::Addrl, Some(offset)) => {
            let offset = offset_behind(offset, by)?;
            Ok(Operand::local(offset))
        }
        _ => Err(Memory),
    }
}

// An offset so many bytes further. `Memory` where it is no number of 32 bits.
fn offset_behind(offset: i64, by: u32) -> Result<i32, Memory>
    ensures { IfOk result (λ z. z ≡ offset +ℤ pos by) }
{
    let Some(sum) = offset.checked_add(i64::from(by)) else {
        return Err(Memory);
    };
    match i32::try_from(sum) {
        Ok(sum) => Ok(sum),
        Err(_) => Err(Memory),
    }
}

/// So many zeros of a width, from so many bytes behind the beginning of a local on. `Memory` comes where an allocation is refused, where
/// the block or the frame is full or no label is left, and as for `further`; the state is given up then.
pub(crate) fn zero(
    into: &mut State,
    base: Operand,
    width: Width,
    from: u32,
    count: u32,
) -> Result<(), Memory>
    ensures { OnOk result (Goes (λ l. zeros.zeroed (typed_of base) width from count l) into.old into.new) }
{
    if count <= FEW {
        zero_each(&mut into.block, base, width, from, count)
    } else {
        let to = sum(from, product(count, width.bytes())?)?;
        zero_in_turn(into, base, width, from, to)
    }
}

/// So many of them, each by a root.
pub(crate) fn zero_each(
    block: &mut OpenBlock,
    base: Operand,
    width: Width,
    from: u32,
    count: u32,
) -> Result<(), Memory>
    ensures { OnOk result (Acts block.old (λ l. zeros.zeroed_each (typed_of base) width from count l) block.new) }
{
    if count == 0 {
        return Ok(());
    }
    zero_at(block, base, width, from)?;
    let next = sum(from, width.bytes())?;
    zero_each(block, base, width, next, count - 1)
}

// One.
fn zero_at(block: &mut OpenBlock, base: Operand, width: Width, from: u32) -> Result<(), Memory>
    ensures { OnOk result (Acts block.old (λ l. zeros.zeroed_at (typed_of base) width from l) block.new) }
{
    let place = further(from, base)?;
    block.store(width, place, Operand::number(true, 0))
}

// Those up to an offset, by a loop: a slot has how many bytes behind the beginning the next one stands.
fn zero_in_turn(
    into: &mut State,
    base: Operand,
    width: Width,
    from: u32,
    to: u32,
) -> Result<(), Memory>
    ensures { OnOk result (Goes (λ l. zeros.zeroed_in_turn (typed_of base) width from to l) into.old into.new) }
{
    let slot = into.new_slot()?;
    into.block.store_in(slot, Operand::number(true, from))?;
    let top = into.new_label()?;
    into.mark(top)?;
    zero_next(&mut into.block, base, width, slot)?;
    go_on_below(into, slot, to, top)
}

// The zero at the offset that the slot has, which is raised.
fn zero_next(block: &mut OpenBlock, base: Operand, width: Width, slot: i32) -> Result<(), Memory>
    ensures { OnOk result (Acts block.old (λ l. zeros.zeroed_next (typed_of base) width slot l) block.new) }
{
    zero_moved(block, base, width, slot)?;
    raise(block, width, slot)
}

// The zero at the offset that the slot has.
fn zero_moved(block: &mut OpenBlock, base: Operand, width: Width, slot: i32) -> Result<(), Memory>
    ensures { OnOk result (Acts block.old (λ l. acted (stored_as width (moved 1 false (typed_of base) (slot_read Suffix.I slot)) (number true 0)) l) block.new) }
{
    let place = block.moved(1, false, base, Operand::slot(Suffix::I, slot))?;
    block.store(width, place, Operand::number(true, 0))
}

// The offset in the slot is raised by a width.
fn raise(block: &mut OpenBlock, width: Width, slot: i32) -> Result<(), Memory>
    ensures { OnOk result (Acts block.old (λ l. stored_in slot (binary_of Binary.Add true (slot_read Suffix.I slot) (number true (bytes_in width))) l) block.new) }
{
    let place = block.operand(Operand::local(slot))?;
    let step = Operand::number(true, width.bytes());
    let next = block.binary(Binary::Add, true, Operand::slot(Suffix::I, slot), step)?;
    block.store(Width::Four, Operand::node(place, Suffix::P), next)
}

// A jump to the label where the offset in the slot is below this one.
fn go_on_below(into: &mut State, slot: i32, to: u32, top: u32) -> Result<(), Memory>
    ensures { OnOk result (Goes (λ l. branched (compared Comparison.Less true true top (slot_read Suffix.I slot) (number true to)) l) into.old into.new) }
{
    let jump = Jump {
        when: true,
        label: top,
    };
    let offset = Operand::slot(Suffix::I, slot);
    let end = Operand::number(true, to);
    into.block
        .compare(Comparison::Less, true, jump, offset, end)?;
    into.end()
}
