//! Stretches of an object's bytes, each of which is an item.
ghost use Rattle.std.specs.Prelude.{◌≡◌, ◌≤◌, ◌<◌, IfOk, length};
ghost use Rattle.c_worlds.specs.Programs.{HasNames, unit_of};
ghost use Rattle.lowered_data.specs.Data.{AreDataOf, IsSoundStorage, IsStretch, IsWordAt, bytes_of, image};

use crate::addresses::{function_address, object_address};
use crate::reader::{Reader, bytes_between, bytes_end, pointer_to, zeros_end};
use c_worlds::Program;
use lcc_base::{Items, Memory};
use objects::{Scalar, Value, Width};
use op_forest::Datum;
use std::alloc::Global;

/// An item, and the place where its bytes end.
#[derive(Drop)]
pub struct Stretch {
    pub datum: Datum,
    pub end: u32,
}

/// The items that an object's bytes are. `Memory` comes too where they hold what no checked unit's objects hold at the start.
pub fn items_of(alloc: Global, program: &Program, reader: &Reader) -> Result<Items<Datum>, Memory>
    requires names { HasNames program.now }
    requires order { reader.now.order ≡ program.now.order }
    requires sound { IsSoundStorage reader.now.storage.now }
    requires size { length (bytes_of reader.now.storage.now.objects reader.now.object) ≡ reader.now.object.size }
    ensures { IfOk result (λ ds. AreDataOf (image (unit_of program.now) program.now.order reader.now.storage.now.objects) ds (bytes_of reader.now.storage.now.objects reader.now.object)) }
{
    let mut items = Items::new(alloc);
    let mut from = 0;
    while from < reader.object.size {
        let stretch = next_stretch(alloc, program, reader, from)?;
        from = stretch.end;
        items.push(stretch.datum)?;
    }
    Ok(items)
}

/// The item that begins at a place: zeros, other bytes that are known, or an address.
fn next_stretch(
    alloc: Global,
    program: &Program,
    reader: &Reader,
    from: u32,
) -> Result<Stretch, Memory>
    requires names { HasNames program.now }
    requires order { reader.now.order ≡ program.now.order }
    requires sound { IsSoundStorage reader.now.storage.now }
    requires size { length (bytes_of reader.now.storage.now.objects reader.now.object) ≡ reader.now.object.size }
    requires within { from < reader.now.object.size }
    ensures { IfOk result (λ s. IsStretch (image (unit_of program.now) program.now.order reader.now.storage.now.objects) (bytes_of reader.now.storage.now.objects reader.now.object) from s.datum s.end) }
{
    let zeros = zeros_end(reader, from);
    if from < zeros {
        return Ok(Stretch {
            datum: Datum::Zero(zeros - from),
            end: zeros,
        });
    }
    let end = bytes_end(reader, from);
    if from < end {
        let bytes = bytes_between(alloc, reader, from, end)?;
        return Ok(Stretch {
            datum: Datum::Bytes(bytes),
            end,
        });
    }
    address(program, reader, from)
}

/// The address that stands at a place.
fn address(program: &Program, reader: &Reader, from: u32) -> Result<Stretch, Memory>
    requires names { HasNames program.now }
    requires order { reader.now.order ≡ program.now.order }
    requires size { length (bytes_of reader.now.storage.now.objects reader.now.object) ≡ reader.now.object.size }
    ensures { IfOk result (λ s. IsStretch (image (unit_of program.now) program.now.order reader.now.storage.now.objects) (bytes_of reader.now.storage.now.objects reader.now.object) from s.datum s.end) }
{
    if (reader.object.size as u64) < from as u64 + 4 {
        return Err(Memory);
    }
    let datum = word_at(program, reader, from)?;
    Ok(Stretch {
        datum,
        end: from + 4,
    })
}

/// The pointer or function that the four bytes from a place on are, as an item.
fn word_at(program: &Program, reader: &Reader, from: u32) -> Result<Datum, Memory>
    requires names { HasNames program.now }
    requires order { reader.now.order ≡ program.now.order }
    ensures { IfOk result (λ d. IsWordAt (image (unit_of program.now) program.now.order reader.now.storage.now.objects) (bytes_of reader.now.storage.now.objects reader.now.object) from d) }
{
    let word = Scalar {
        width: Width::Four,
        signed: false,
    };
    let p = pointer_to(reader, from);
    match reader.storage.read(reader.order, word, p) {
        Ok(Value::Pointer { object, offset }) => {
            object_address(program, reader.storage, object, offset)
        }
        Ok(Value::Function(number)) => function_address(program, reader.storage, number),
        _ => Err(Memory),
    }
}
