//! One place of an object filled, and a whole object zeroed.
ghost use Rattle.std.specs.Prelude.{◌≡◌, pos, IfSome};
ghost use Rattle.objects.specs.Pointers.{place_after};
ghost use Rattle.c_filling.specs.Filled.{filled_at, seen_place, zeroed_whole};
ghost use Rattle.c_runs.specs.Places.{Spot, stored};
ghost use Rattle.c_runs.specs.Statements.{filled};
ghost use Rattle.c_worlds.specs.Programs.{Calls, known, setting_of};
ghost use Rattle.c_worlds.specs.Shown.{Goes, StaysBelow};
ghost use Rattle.c_worlds.specs.Stops.{Stores};
ghost use Rattle.objects.specs.declared.purpose.Purpose.TheVariants.{Initialisation};

use crate::strings::string;
use c_acts::{Spot, Writing, store};
use c_meaning::FilledPlace;
use c_types::MemberPlace;
use c_worlds::{
    Program, Stop, World, alignment, array_length, at_line, is_record, scalar, size, store_at_line,
};
use objects::{Purpose, Storage, Value};
use std::alloc::Global;

/// Stores a value in a place of the object at `base`, const or not: an array of characters by a string of the program, a
/// structure as a whole, a scalar or a bit-field. `Undefined` comes with the value's line. `Memory` comes too where the
/// place lies past 2^32 bytes.
pub fn fill_place(
    alloc: Global,
    program: &Program,
    world: &mut World,
    place: &FilledPlace,
    base: Value,
    value: Value,
) -> Result<(), Stop>
    ensures goes { (calls : Calls) → Goes (λ k w. filled_at (setting_of program.now calls) (seen_place program.now place.now) base value k w) world.old world.new result }
    ensures stays { StaysBelow world.old world.new }
{
    let Some(to) = behind(base, place.at.offset) else {
        return Err(Stop::Memory);
    };
    let line = place.value.line;
    store_value(alloc, program, &mut world.storage, place, to, value, line)
}

/// Makes each byte of the object at a place zero.
pub fn make_zero(world: &mut World, base: Value) -> Result<(), Stop>
    ensures goes { Goes (λ k w. zeroed_whole base k w) world.old world.new result }
    ensures stays { StaysBelow world.old world.new }
{
    match base {
        Value::Pointer { object, .. } => at_line(0, world.storage.clear(object)),
        _ => Ok(()),
    }
}

/// So many bytes behind a place of an object. None where that is past 2^32.
fn behind(base: Value, by: u32) -> Option<Value>
    ensures { IfSome result (λ v. v ≡ place_after base (pos by)) }
{
    match base {
        Value::Pointer { object, offset } => {
            let offset = offset.checked_add(by)?;
            Some(Value::Pointer { object, offset })
        }
        other => Some(other),
    }
}

/// Stores a value at a place, as the place's type has it.
fn store_value(
    alloc: Global,
    program: &Program,
    storage: &mut Storage,
    place: &FilledPlace,
    to: Value,
    value: Value,
    line: u32,
) -> Result<(), Stop>
    ensures { (calls : Calls) → Stores (filled (setting_of program.now calls) (seen_place program.now place.now) to value storage.old.objects) line storage.old storage.new result }
{
    let types = program.core.types();
    let of = place.at.of;
    if let Some(count) = array_length(types, of) {
        let bytes = string(alloc, program, count, &place.value)?;
        store_at_line(
            line,
            storage.write_bytes(Purpose::Initialisation, &bytes, to),
        )
    } else if is_record(types, of) {
        let (size, alignment) = (size(types, of), alignment(types, of));
        store_at_line(
            line,
            storage.copy(Purpose::Initialisation, value, to, size, alignment),
        )
    } else {
        store_scalar(program, storage, place.at, to, value, line)
    }
}

/// Stores a scalar or a bit-field. `Memory` comes too where the bit-field doesn't lie in its unit.
fn store_scalar(
    program: &Program,
    storage: &mut Storage,
    at: MemberPlace,
    to: Value,
    value: Value,
    line: u32,
) -> Result<(), Stop>
    ensures { Stores (stored Initialisation program.now.order (record { of = known program.now at.of; first = at.first; width = at.width }) value storage.old.objects to) line storage.old storage.new result }
{
    let scalar = scalar(program.core.types(), at.of);
    let spot = Spot::of_member(scalar, at.first, at.width)?;
    let how = Writing {
        purpose: Purpose::Initialisation,
        order: program.order,
        line,
    };
    store(storage, how, spot, value, to)
}
