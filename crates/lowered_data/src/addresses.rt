//! The addresses that initial data holds, as names.
ghost use Rattle.std.specs.Prelude.{◌≡◌, ◌+◌, ◌≤◌, IfOk, length};
ghost use Rattle.objects.specs.Bytes.{part_bytes};
ghost use Rattle.objects.specs.declared.value.Value.TheVariants as Value;
ghost use Rattle.c_worlds.specs.Programs.{HasNames, unit_of};
ghost use Rattle.lowered_data.specs.Data.{IsDatumOf, image};

use c_entries::{Callee, callee_of};
use c_worlds::Program;
use lcc_base::Memory;
use objects::{ObjectName, Storage, Value};
use op_forest::Datum;

/// The address of a place in an object. `Memory` comes too where the object doesn't live, the place isn't in it, or name or
/// offset are too large: no checked unit has another address in what its objects hold at the start.
pub fn object_address(
    program: &Program,
    storage: &Storage,
    object: ObjectName,
    offset: u32,
) -> Result<Datum, Memory>
    ensures { IfOk result (λ d. IsDatumOf (image (unit_of program.now) program.now.order storage.now.objects) d (part_bytes program.now.order (Value.Pointer object offset))) }
{
    if !storage.lives(object) || object.size < offset || offset > i32::MAX as u32 {
        return Err(Memory);
    }
    let name = object_name(program, object.place)?;
    Ok(Datum::Name {
        name,
        offset: offset as i32,
    })
}

/// The name of the object at a place: it stands behind those of the functions. `Memory` where it has more than 32 bits.
pub fn object_name(program: &Program, place: u32) -> Result<u32, Memory>
    ensures { IfOk result (λ name. name ≡ length (unit_of program.now).functions + place) }
{
    let functions = program.core.functions().len();
    if functions > u32::MAX as usize {
        return Err(Memory);
    }
    let name = functions as u64 + place as u64;
    if name > u32::MAX as u64 {
        return Err(Memory);
    }
    Ok(name as u32)
}

/// The address of a function. `Memory` where none has the number: no checked unit names another.
pub fn function_address(program: &Program, storage: &Storage, number: u32) -> Result<Datum, Memory>
    requires { HasNames program.now }
    ensures { IfOk result (λ d. IsDatumOf (image (unit_of program.now) program.now.order storage.now.objects) d (part_bytes program.now.order (Value.Function number))) }
{
    match callee_of(program, Value::Function(number)) {
        Callee::Nothing => Err(Memory),
        _ => Ok(Datum::Name {
            name: number,
            offset: 0,
        }),
    }
}
