//! The lowered objects that hold what a storage's objects do.
ghost use Rattle.std.specs.Prelude.{◌≡◌, ◌+◌, [], length, IfOk, OnOk, IfSome};
ghost use Rattle.objects.specs.Objects.{object_of, is_constant as is_constant_object};
ghost use Rattle.c_worlds.specs.Programs.{HasNames, unit_of};
ghost use Rattle.lowered_data.specs.Data.{HasHome, HaveHomes, IsSoundStorage, image};

use crate::addresses::object_name;
use crate::reader::Reader;
use crate::stretches::items_of;
use c_worlds::{Program, size};
use lcc_base::{Cause, Items, Memory};
use objects::{ObjectName, Purpose, Storage, StoreFault, Value};
use op_forest::LoweredObject;
use std::alloc::Global;

/// The lowered objects for the unit's objects and then its texts, which are the first of the storage. `Memory` comes too where
/// they aren't, or hold what no checked unit's objects hold at the start.
pub fn homes(
    alloc: Global,
    program: &Program,
    storage: &mut Storage,
) -> Result<Items<LoweredObject>, Memory>
    requires names { HasNames program.now }
    requires sound { IsSoundStorage storage.old }
    ensures homes { IfOk result (λ os. HaveHomes (image (unit_of program.now) program.now.order storage.old.objects) 0 os) }
    ensures many { IfOk result (λ os. length os ≡ length (unit_of program.now).objects + length (unit_of program.now).texts) }
    ensures same { storage.new ≡ storage.old }
{
    let objects = object_homes(alloc, program, storage)?;
    text_homes(alloc, program, storage, objects)
}

/// Those for the unit's objects.
fn object_homes(
    alloc: Global,
    program: &Program,
    storage: &mut Storage,
) -> Result<Items<LoweredObject>, Memory>
    requires names { HasNames program.now }
    requires sound { IsSoundStorage storage.old }
    ensures homes { IfOk result (λ os. HaveHomes (image (unit_of program.now) program.now.order storage.old.objects) 0 os) }
    ensures many { IfOk result (λ os. length os ≡ length (unit_of program.now).objects) }
    ensures same { storage.new ≡ storage.old }
{
    let core = program.core;
    let mut homes = Items::new(alloc);
    for object in core.objects() {
        let size = size(core.types(), object.of);
        let home = home(alloc, program, storage, homes.len(), size)?;
        homes.push(home)?;
    }
    Ok(homes)
}

/// These, and behind them those for the unit's texts, each with a null behind it.
fn text_homes(
    alloc: Global,
    program: &Program,
    storage: &mut Storage,
    mut homes: Items<LoweredObject>,
) -> Result<Items<LoweredObject>, Memory>
    requires names { HasNames program.now }
    requires sound { IsSoundStorage storage.old }
    requires homes { HaveHomes (image (unit_of program.now) program.now.order storage.old.objects) 0 homes }
    ensures homes { IfOk result (λ os. HaveHomes (image (unit_of program.now) program.now.order storage.old.objects) 0 os) }
    ensures many { IfOk result (λ os. length os ≡ length homes + length (unit_of program.now).texts) }
    ensures same { storage.new ≡ storage.old }
{
    for text in program.core.texts() {
        let size = text.len();
        if size >= u32::MAX as usize {
            return Err(Memory);
        }
        let home = home(alloc, program, storage, homes.len(), size as u32 + 1)?;
        homes.push(home)?;
    }
    Ok(homes)
}

/// The lowered object for the object of this size at a place of the storage.
fn home(
    alloc: Global,
    program: &Program,
    storage: &mut Storage,
    place: usize,
    size: u32,
) -> Result<LoweredObject, Memory>
    requires names { HasNames program.now }
    requires sound { IsSoundStorage storage.old }
    ensures home { IfOk result (λ o. HasHome (image (unit_of program.now) program.now.order storage.old.objects) place o) }
    ensures same { storage.new ≡ storage.old }
{
    if place > u32::MAX as usize {
        return Err(Memory);
    }
    let object = ObjectName {
        place: place as u32,
        made: place as u64,
        size,
    };
    if !storage.lives(object) {
        return Err(Memory);
    }
    let constant = is_constant(storage, object)?;
    let reader = Reader {
        order: program.order,
        storage,
        object,
    };
    let items = items_of(alloc, program, &reader)?;
    let name = object_name(program, object.place)?;
    Ok(LoweredObject {
        name,
        size,
        constant,
        items,
    })
}

/// Whether an object may not be written: then a store is refused even of no byte at all.
fn is_constant(storage: &mut Storage, object: ObjectName) -> Result<bool, Memory>
    ensures value { IfOk result (λ b. b ≡ is_constant_object (object_of storage.old.objects object)) }
    ensures same { storage.new ≡ storage.old }
{
    let p = Value::Pointer { object, offset: 0 };
    match storage.write_bytes(Purpose::Assignment, &[], p) {
        Ok(()) => Ok(false),
        Err(StoreFault::Undefined(Cause::ReadOnly)) => Ok(true),
        Err(_) => Err(Memory),
    }
}
