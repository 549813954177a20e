//! How many bytes a function's frame and a unit's data take.
ghost use Rattle.std.specs.Prelude.{◌≡◌, ◌+◌, ◌<◌, ◌^◌, IfOk, length, map};
ghost use Rattle.c_types.specs.Layout.{round_up};
ghost use Rattle.c_types.specs.Table.{tags, type_at, types as all_types};
ghost use Rattle.c_meaning.specs.Units.{function_seen, object_seen};
ghost use Rattle.c_runs.specs.Counts.{eights, frame_count, local_room, rounded_size};
ghost use Rattle.lowering_limits.specs.Sizes.{local_bytes, object_bytes, text_bytes};

use crate::plus::plus;
use c_meaning::{CoreFunction, CoreObject};
use c_types::{TypeId, TypeTable};
use lcc_base::{Bytes, Memory};

/// The bytes of a function's local objects that are no parameters, each rounded up to a multiple of 8, and 8 of one without a
/// byte. `Memory` where they are 2^64 or more.
#[tactic(auto, using(crate::proofs::Seen::frame_is))]
pub(crate) fn frame_bytes(types: &TypeTable, f: &CoreFunction) -> Result<u64, Memory>
    ensures { IfOk result (λ n. n ≡ frame_count (tags types.now) (function_seen (all_types types.now) f.now)) }
{
    let locals = f.locals.as_slice();
    let first = (f.parameters as usize).min(locals.len());
    of_locals(types, &locals[first..])
}

/// The bytes of local objects of these types.
#[tactic(auto, using(crate::proofs::Counting::one_more))]
fn of_locals(types: &TypeTable, locals: &[TypeId]) -> Result<u64, Memory>
    ensures { IfOk result (λ n. n ≡ local_bytes types.now locals.now) }
{
    let mut count: u64 = 0;
    for id in locals {
        count = plus(count, room(types, *id))?;
    }
    Ok(count)
}

/// A number, and the bytes of objects of a unit.
pub(crate) fn of_objects(types: &TypeTable, objects: &[CoreObject]) -> Result<u64, Memory>
    ensures { IfOk result (λ n. n ≡ object_bytes types.now objects.now) }
{
    let mut count: u64 = 0;
    for object in objects {
        count = plus(count, size(types, object.of))?;
    }
    Ok(count)
}

/// A number, and the bytes of texts with a null behind each.
pub(crate) fn of_texts(texts: &[Bytes], before: u64) -> Result<u64, Memory>
    ensures { IfOk result (λ n. n ≡ before + text_bytes texts.now) }
{
    let mut count = before;
    for text in texts {
        let length = plus(text.len() as u64, 1)?;
        count = plus(count, rounded(length)?)?;
    }
    Ok(count)
}

/// The room of a local object of the type: its size, rounded up to a multiple of 8, and 8 where it has no byte.
fn room(types: &TypeTable, id: TypeId) -> u64
    ensures { result ≡ local_room (tags types.now) (type_at types.now id) }
{
    let bytes = size(types, id);
    if bytes == 0 { 8 } else { bytes }
}

/// The size of an object of the type, rounded up to a multiple of 8; 0 where it has none.
fn size(types: &TypeTable, id: TypeId) -> u64
    ensures { result ≡ rounded_size (tags types.now) (type_at types.now id) }
{
    if id >= types.len() {
        return 0;
    }
    let size = u64::from(types.size(id).unwrap_or(0));
    (size + 7) / 8 * 8
}

/// A number rounded up to a multiple of 8. `Memory` where it passes 2^64.
fn rounded(n: u64) -> Result<u64, Memory>
    ensures { IfOk result (λ m. m ≡ eights n) }
{
    Ok(plus(n, 7)? / 8 * 8)
}
