//! New slots below those of a frame.
ghost use Rattle.std.specs.Prelude.{◌≡◌, IfOk};
ghost use Rattle.dag_forest.specs.NewSlots.{offset_below, slots_below};

use lcc_base::Memory;
use op_forest::Slot;
use std::alloc::Global;

/// The size of a slot that keeps a node, in bytes.
const WORD: u32 = 4;

/// Where the new slot of this number begins, from 0. `Memory` comes where that is below -2^31.
pub(crate) fn offset_below(lowest: i32, number: u32) -> Result<i32, Memory>
    ensures { IfOk result (λ o. o ≡ offset_below lowest number) }
{
    let offset = i64::from(lowest) - i64::from(WORD) * (i64::from(number) + 1);
    match i32::try_from(offset) {
        Ok(offset) => Ok(offset),
        Err(_) => Err(Memory),
    }
}

/// So many new slots below a lowest one. `Memory` comes where an allocation is refused, or where a slot
/// would begin below -2^31.
pub(crate) fn slots_below(alloc: Global, lowest: i32, number: u32) -> Result<Vec<Slot>, Memory>
    ensures { IfOk result (λ v. v.items ≡ slots_below lowest number) }
{
    let mut slots = Vec::new(alloc);
    for n in 0..number {
        let offset = offset_below(lowest, n)?;
        slots.push(Slot { offset, size: WORD })?;
    }
    Ok(slots)
}
