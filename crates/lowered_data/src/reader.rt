//! The bytes of an object, read one by one.
ghost use Rattle.std.specs.Prelude.{◌≡◌, ◌≤◌, ◌<◌, ◌+◌, ◌-◌, ℕ, IfOk, IfSome, Some, length, slice_get};
ghost use Rattle.objects.specs.Bytes.{known_bytes};
ghost use Rattle.objects.specs.declared.byte.Byte.TheVariants.{Bits};
ghost use Rattle.lowered_data.specs.Data.{IsSoundStorage, bytes_of};
ghost use Rattle.lowered_data.specs.Stand.{Stand};

use lcc_base::{Bytes, Memory, Order};
use objects::{ObjectName, Scalar, Storage, Value, Width};
use std::alloc::Global;

/// An object of a storage, as it is read.
#[derive(Clone, Copy)]
pub struct Reader<'a> {
    pub order: Order,
    pub storage: &'a Storage,
    pub object: ObjectName,
}

/// So many zero bytes in a row, and more, stand apart from bytes before them.
const MANY: u32 = 8;

/// The pointer to a byte of the object.
pub fn pointer_to(reader: &Reader, place: u32) -> Value
    ensures { result ≡ Value.Pointer reader.now.object place }
{
    Value::Pointer {
        object: reader.object,
        offset: place,
    }
}

/// The byte at a place, where it is one whose bits are known.
fn known_byte(reader: &Reader, place: u32) -> Option<u8>
    requires { IsSoundStorage reader.now.storage.now }
    ensures { IfSome result (λ b. slice_get (bytes_of reader.now.storage.now.objects reader.now.object) place ≡ Some (Bits 255 b)) }
{
    let character = Scalar {
        width: Width::One,
        signed: false,
    };
    let p = pointer_to(reader, place);
    match reader.storage.number(reader.order, character, p) {
        Some(n) => Some(n as u8),
        None => None,
    }
}

/// Where the zero bytes end that stand from a place on.
pub fn zeros_end(reader: &Reader, from: u32) -> u32
    requires sound { IsSoundStorage reader.now.storage.now }
    requires within { from ≤ reader.now.object.size }
    ensures after { from ≤ result }
    ensures within { result ≤ reader.now.object.size }
    ensures zeros { (k : ℕ) → from ≤ k → k < result → slice_get (bytes_of reader.now.storage.now.objects reader.now.object) k ≡ Some (Bits 255 0) }
{
    for place in from..reader.object.size {
        if known_byte(reader, place) != Some(0) {
            return place;
        }
    }
    reader.object.size
}

/// Where the known bytes end that stand from a place on, before many zeros or a byte that isn't known.
pub fn bytes_end(reader: &Reader, from: u32) -> u32
    requires sound { IsSoundStorage reader.now.storage.now }
    requires within { from ≤ reader.now.object.size }
    ensures after { from ≤ result }
    ensures within { result ≤ reader.now.object.size }
{
    let mut zeros = 0;
    for place in from..reader.object.size {
        match known_byte(reader, place) {
            None => return place,
            Some(0) => {
                zeros += 1;
                if zeros == MANY {
                    return place + 1 - zeros;
                }
            }
            Some(_) => zeros = 0,
        }
    }
    reader.object.size
}

/// The bytes from one place to another. `Memory` comes too where one of them isn't known.
pub fn bytes_between(alloc: Global, reader: &Reader, from: u32, end: u32) -> Result<Bytes, Memory>
    requires sound { IsSoundStorage reader.now.storage.now }
    requires after { from ≤ end }
    ensures stand { IfOk result (λ bytes. Stand (bytes_of reader.now.storage.now.objects reader.now.object) from (known_bytes bytes)) }
    ensures count { IfOk result (λ bytes. from + length bytes ≡ end) }
{
    let mut bytes = Bytes::new(alloc);
    for place in from..end {
        match known_byte(reader, place) {
            Some(byte) => bytes.push(byte)?,
            None => return Err(Memory),
        }
    }
    Ok(bytes)
}
