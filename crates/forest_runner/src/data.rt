//! The objects of a unit, put into memory.
use crate::halt::Halt;
use crate::memory::Memory;
use crate::names::Names;
use op_forest::{Datum, Lowered, LoweredObject};

/// The unit's objects are put into memory, each at a multiple of 8.
pub(crate) fn place_objects(
    unit: &Lowered,
    memory: &mut Memory,
    names: &mut Names,
) -> Result<(), Halt> {
    let mut address = memory.end()?;
    for object in unit.objects() {
        names.set_object(object.name, address);
        address = behind(address, object.size);
    }
    for object in unit.objects() {
        memory.align()?;
        place_object(object, memory, names)?;
    }
    memory.align()
}

// The next multiple of 8 behind so many bytes.
fn behind(address: u32, size: u32) -> u32 {
    address.wrapping_add(size).wrapping_add(7) & 0xFFFF_FFF8
}

fn place_object(object: &LoweredObject, memory: &mut Memory, names: &Names) -> Result<(), Halt> {
    for item in object.items.as_slice() {
        match item {
            Datum::Bytes(bytes) => memory.extend(bytes.as_slice())?,
            Datum::Name { name, offset } => {
                let value = names.value(*name)?;
                memory.push_word(value.wrapping_add(offset.cast_unsigned()))?;
            }
            Datum::Label { label, .. } => memory.push_word(*label)?,
            Datum::Zero(count) => memory.zeros(*count)?,
        }
    }
    Ok(())
}
