//! The slots of a frame, in a table that tells whether an offset lies in one.
ghost use Rattle.std.specs.Prelude.{◌≡◌, ◌↔◌, IsTrue, ℤ, ◌<ℤ◌, int_le, List, ◌∷◌, IfOk};
ghost use Rattle.op_forest.specs.declared.frame.Slot.{Slot as Slots};
ghost use Rattle.op_forest.specs.Frames.{end_of};
ghost use Rattle.forests.specs.SlotTables.{AreInOrder, greater, reaches};
ghost use Rattle.forests.specs.WellFormed.{HasSlot, HasSlots, LiesInOne};

use lcc_base::Memory;
use op_forest::{Op, Operands, Slot, Tree};
use std::alloc::Global;
use std::marker::Model;

/// The offsets from `start` on, and below `end`.
#[derive(Clone, Copy, Debug)]
pub(crate) struct Reach {
    pub(crate) start: i64,
    pub(crate) end: i64,
}

/// A frame's slots, which contracts see, with what they reach in the order of their places.
#[derive(Drop)]
pub(crate) struct SlotTable<'a> {
    slots: &'a [Slot],
    reaches: Vec<Reach>,
}

impl<'a> Model for SlotTable<'a> {
    ghost use Rattle.std.specs.Prelude.{List};
    ghost use Rattle.op_forest.specs.declared.frame.Slot.{Slot};
    ghost use Rattle.forests.specs.SlotTables.{IsTable};

    ghost Value = { List Slot };

    ghost view = { λ t. t.slots.now };

    ghost invariant = { λ t. IsTable t.slots.now t.reaches.items };
}

impl<'a> SlotTable<'a> {
    /// The table of these slots.
    pub(crate) fn of_slots(alloc: Global, slots: &'a [Slot]) -> Result<Self, Memory>
        ensures { IfOk result (λ table. table ≡ slots.now) }
    {
        let sorted = in_order(alloc, slots)?;
        let reaches = reaches_of(alloc, &sorted)?;
        Ok(SlotTable { slots, reaches })
    }

    /// Whether the byte at an offset from the frame's top is one of a slot.
    fn has(&self, offset: i64) -> bool
        ensures { IsTrue result ↔ LiesInOne self.now offset }
    {
        let started = self.reaches.partition_point(
            |reach: &Reach| -> bool
                ensures { result ≡ int_le reach.now.start offset }
            { reach.start <= offset },
        );
        if started == 0 {
            return false;
        }
        ends_behind(&self.reaches[started - 1], offset)
    }
}

/// Whether the end is behind an offset.
fn ends_behind(reach: &Reach, offset: i64) -> bool
    ensures { IsTrue result ↔ (offset <ℤ reach.now.end) }
{
    offset < reach.end
}

/// The slots in the order of their places.
fn in_order(alloc: Global, slots: &[Slot]) -> Result<Vec<Slot>, Memory>
    ensures order { IfOk result (λ sorted. AreInOrder sorted.items) }
    ensures same { IfOk result (λ sorted. (z : ℤ) → LiesInOne slots.now z ↔ LiesInOne sorted.items z) }
{
    let mut sorted = Vec::new(alloc);
    sorted.extend_from_slice(slots)?;
    sorted.sort_unstable_by_key(|slot| slot.offset);
    Ok(sorted)
}

/// Where the first slot starts: 0 if there is none.
fn first_start(sorted: &[Slot]) -> i64
    ensures { (first : Slots) (others : List Slots) → sorted.now ≡ first ∷ others → result ≡ first.offset }
{
    match sorted.first() {
        Some(slot) => i64::from(slot.offset),
        None => 0,
    }
}

/// What a slot reaches, where those before it end at most at `end`.
fn reach_of(end: i64, slot: &Slot) -> Reach
    ensures { result ≡ record { start = slot.now.offset; end = greater end (end_of slot.now) } }
{
    let start = i64::from(slot.offset);
    let own = start + i64::from(slot.size);
    let end = if end <= own { own } else { end };
    Reach { start, end }
}

/// What slots in the order of their places reach.
fn reaches_of(alloc: Global, sorted: &[Slot]) -> Result<Vec<Reach>, Memory>
    ensures { IfOk result (λ table. table.items ≡ reaches sorted.now) }
{
    let mut table = Vec::with_capacity(alloc, sorted.len())?;
    let mut end = first_start(sorted);
    for slot in sorted {
        let reach = reach_of(end, slot);
        end = reach.end;
        table.push(reach)?;
    }
    Ok(table)
}

/// Whether each local of the tree is in a slot.
pub(crate) fn has_slots(table: &SlotTable, tree: &Tree) -> bool
    ensures { IsTrue result ↔ HasSlots table.now tree.now }
{
    if !has_slot(table, tree) {
        return false;
    }
    match tree.operands() {
        Operands::Leaf => true,
        Operands::Unary(a) => has_slots(table, a),
        Operands::Binary(a, b) => has_slots(table, a) && has_slots(table, b),
    }
}

/// Whether the tree's root is in a slot, if it is a local.
fn has_slot(table: &SlotTable, tree: &Tree) -> bool
    ensures { IsTrue result ↔ HasSlot table.now tree.now }
{
    match (tree.operator.op, tree.value) {
        (Op::Addrl, Some(offset)) => table.has(offset),
        (Op::Addrl, None) => false,
        _ => true,
    }
}
