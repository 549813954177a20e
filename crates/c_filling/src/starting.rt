//! The world in which a program starts.
ghost use Rattle.std.specs.Prelude.{◌≡◌, [], IfOk, OnOk, map};
ghost use Rattle.c_filling.specs.Starts.{Starts, kept_in};
ghost use Rattle.c_meaning.specs.Units.{object_seen};
ghost use Rattle.c_runs.specs.Run.{filled_from, with_objects_of, with_texts};
ghost use Rattle.c_runs.specs.Worlds.{World as RunWorld};
ghost use Rattle.c_types.specs.Table.{tags, types as types_in};
ghost use Rattle.c_worlds.specs.Shown.{Goes, StaysBelow};
ghost use Rattle.c_runs.specs.Places.{static_place};
ghost use Rattle.c_worlds.specs.Programs.{Calls, HasNames, setting_of};

use crate::filling::{are_plain, fill};
use c_meaning::CoreObject;
use c_types::TypeTable;
use c_worlds::{Locals, Program, Stop, World, is_const, size};
use lcc_base::{Bytes, Memory};
use objects::{ObjectName, Storage, Value};
use std::alloc::Global;

/// The world in which a program starts: its objects, which hold their first values, and its texts, which may not be
/// written. `Memory` comes too where an object's first value calls something, which none of a checked unit does.
pub fn start<'a>(alloc: Global, program: &Program, input: &'a [u8]) -> Result<World<'a>, Stop>
    requires { HasNames program.now }
    ensures starts { Starts program.now input.now result }
    ensures output { IfOk result (λ w. w.output ≡ []) }
    ensures locals { IfOk result (λ w. w.locals ≡ record { below = []; here = [] }) }
{
    let mut world = World {
        storage: Storage::new(alloc),
        locals: Locals::new(alloc),
        input,
        output: Bytes::new(alloc),
    };
    let core = program.core;
    make_objects(core.types(), core.objects(), &mut world.storage)?;
    make_texts(alloc, core.texts(), &mut world.storage)?;
    fill_objects(alloc, program, &mut world, core.objects())?;
    Ok(world)
}

/// Makes the objects of a unit, of zero bytes.
fn make_objects(
    types: &TypeTable,
    objects: &[CoreObject],
    storage: &mut Storage,
) -> Result<(), Memory>
    ensures { OnOk result ((w : RunWorld) → with_objects_of (tags types.now) (map (object_seen (types_in types.now)) objects.now) (kept_in storage.old w) ≡ kept_in storage.new w) }
{
    for object in objects {
        storage.make_zeroed(is_const(types, object.of), size(types, object.of))?;
    }
    Ok(())
}

/// Makes the texts of a unit, each with a null behind it, which may not be written.
fn make_texts(alloc: Global, texts: &[Bytes], storage: &mut Storage) -> Result<(), Memory>
    ensures { OnOk result ((w : RunWorld) → with_texts texts.now (kept_in storage.old w) ≡ kept_in storage.new w) }
{
    for text in texts {
        let mut bytes = Bytes::copied(alloc, text.as_slice())?;
        bytes.push(0)?;
        storage.make_known(true, bytes.as_slice())?;
    }
    Ok(())
}

/// Fills the places of the objects, the first of which are the unit's.
fn fill_objects(
    alloc: Global,
    program: &Program,
    world: &mut World,
    objects: &[CoreObject],
) -> Result<(), Stop>
    requires { HasNames program.now }
    ensures goes { (calls : Calls) → Goes (λ k w. filled_from (setting_of program.now calls) 0 (map (object_seen (types_in program.now.core.now.types)) objects.now) k w) world.old world.new result }
    ensures stays { StaysBelow world.old world.new }
{
    for place in 0..objects.len() {
        let object = &objects[place];
        let places = object.places.as_slice();
        if !are_plain(places) {
            return Err(Stop::Memory);
        }
        let base = object_at(place, size(program.core.types(), object.of))?;
        fill(alloc, program, world, base, places)?;
    }
    Ok(())
}

/// The pointer to the start of the unit's object at a place. `Memory` where that has more than 32 bits.
fn object_at(place: usize, size: u32) -> Result<Value, Memory>
    ensures { IfOk result (λ v. v ≡ static_place place size) }
{
    if place > u32::MAX as usize {
        return Err(Memory);
    }
    let object = ObjectName {
        place: place as u32,
        made: place as u64,
        size,
    };
    Ok(Value::Pointer { object, offset: 0 })
}
