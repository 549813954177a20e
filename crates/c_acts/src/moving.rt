//! Pointers moved by elements.
ghost use Rattle.std.specs.Prelude.{◌≡◌, ◌<◌, ◌^◌, pos, if◌then◌else◌};
ghost use Rattle.c_runs.specs.Expressions as acts;
ghost use Rattle.c_types.specs.Table.{type_at};
ghost use Rattle.c_worlds.specs.Stops.{Tells};
ghost use Rattle.objects.specs.Arithmetic.{signed_of};

use c_types::{TypeId, TypeTable};
use c_worlds::{Stop, at_line, is_pointer, scalar};
use lcc_base::Cause;
use objects::{Storage, Value};

/// By elements of how many bytes a pointer is moved, whether backwards, and the line.
#[derive(Clone, Copy)]
pub struct Moving {
    pub size: u32,
    pub back: bool,
    pub line: u32,
}

/// A value and its type.
#[derive(Clone, Copy)]
pub struct Typed {
    pub value: Value,
    pub of: TypeId,
}

/// A pointer and an integer, in either order: the pointer moved by so many elements. `PointerNumber`, `Dead` and
/// `PointerRange` come in this order. `Memory` where an element has 2^31 bytes, which none has.
pub fn move_among(
    types: &TypeTable,
    storage: &Storage,
    how: Moving,
    left: Typed,
    right: Typed,
) -> Result<Value, Stop>
    ensures { Tells (acts.moved_among how.size how.back (type_at types.now left.of) (type_at types.now right.of) storage.now.objects left.value right.value) how.line result }
{
    if is_pointer(types, left.of) {
        move_elements(types, storage, how, left.value, right)
    } else {
        move_elements(types, storage, how, right.value, left)
    }
}

/// A pointer moved by as many elements as an integer says.
pub fn move_elements(
    types: &TypeTable,
    storage: &Storage,
    how: Moving,
    p: Value,
    by: Typed,
) -> Result<Value, Stop>
    ensures { Tells (acts.moved_by how.size how.back (type_at types.now by.of) storage.now.objects p by.value) how.line result }
{
    match by.value {
        Value::Number(_) if how.size > 0x7fff_ffff => Err(Stop::Memory),
        Value::Number(n) => {
            let bytes = distance(how, scalar(types, by.of).signed, n);
            at_line(how.line, storage.move_by(p, bytes))
        }
        _ => Err(Stop::Undefined(Cause::PointerNumber, how.line)),
    }
}

/// How many bytes as many elements are as a word says.
fn distance(how: Moving, signed: bool, n: u32) -> i64
    requires { how.size < 2 ^ 31 }
    ensures { result ≡ acts.by_elements how.size how.back (if signed then signed_of n else pos n) }
{
    let count = if signed {
        n.cast_signed() as i64
    } else {
        n as i64
    };
    let forward = how.size as i64 * count;
    if how.back { -forward } else { forward }
}
