//! What is written through pointers: scalars, bit-fields and structures, and objects made zero.
//! Source: C89, 3.3.16 and 3.5.7, in the profile of this compiler.
ghost use Rattle.std.specs.Prelude.{◌≡◌, ◌<◌, ◌≤◌, ◌⊎◌, ◌+◌, ◌^◌, ℕ, false, length, take, drop, replicate, slice_get, Ok, Err, OnOk, OnErr, IfErr};
ghost use Rattle.objects.specs.Accesses.{bytes_through, written, bytes_written, field_written, number_or_zero, zeroed};
ghost use Rattle.objects.specs.Bytes.{known_bytes};
ghost use Rattle.objects.specs.Causes as causes;
ghost use Rattle.objects.specs.Copies.{copied};
ghost use Rattle.objects.specs.Fields.{with_field};
ghost use Rattle.objects.specs.Objects.{contents, stored, flagged, flagged_through};
ghost use Rattle.objects.specs.Places.{IsLeft};
ghost use Rattle.objects.specs.Scalars.{scalar_bytes};
ghost use Rattle.objects.specs.Values.{bytes_in};
ghost use Rattle.objects.specs.declared.byte.Byte.TheVariants.{Bits};
ghost use Rattle.objects.specs.declared.value.Value.TheVariants.{Number};

use crate::place::Place;
use crate::scalars::same_object;
use crate::{Field, Object, ObjectName, Purpose, Storage, StoreFault, Value, Width};
use lcc_base::{Cause, Memory, Order};

impl Storage {
    /// Writes a value as a scalar of so many bytes: its low bits, if it is a number. `PointerNumber` comes
    /// where a pointer or function is written in fewer than four bytes, and then `Outside`, `Misaligned`,
    /// `Dead` and `ReadOnly` in this order. After these nothing has changed, and after `Memory` some of its
    /// first bytes are written.
    pub fn write(
        &mut self,
        purpose: Purpose,
        order: Order,
        width: Width,
        value: Value,
        p: Value,
    ) -> Result<(), StoreFault>
        ensures ok { OnOk result (written purpose order width value self.old.objects p ≡ Ok self.new.objects) }
        ensures err { IfErr result (IsLeft self.old.objects p (scalar_bytes order width value) (written purpose order width value self.old.objects p) self.new.objects) }
        ensures made { self.new.made ≡ self.old.made }
    {
        if is_narrowed(width, value) {
            return Err(StoreFault::Undefined(Cause::PointerNumber));
        }
        let size = width.bytes();
        let place = self.target(purpose, p, size, size)?;
        store_scalar(&mut self.objects, place, order, width, value)?;
        Ok(())
    }

    /// Writes a number as a scalar of so many bytes, which takes no memory: its low bits. `Outside`, `Misaligned`, `Dead`
    /// and `ReadOnly` come in this order, and then nothing has changed.
    pub fn write_number(
        &mut self,
        purpose: Purpose,
        order: Order,
        width: Width,
        n: u32,
        p: Value,
    ) -> Result<(), Cause>
        ensures ok { OnOk result (written purpose order width (Number n) self.old.objects p ≡ Ok self.new.objects) }
        ensures err { IfErr result (λ c. (written purpose order width (Number n) self.old.objects p ≡ Err c) × (self.new ≡ self.old)) }
        ensures made { self.new.made ≡ self.old.made }
    {
        let size = width.bytes();
        let place = self.target(purpose, p, size, size)?;
        store_number(&mut self.objects, place, order, width, n);
        Ok(())
    }

    /// Writes a number's low bits into a bit-field whose unit is at a place; the other bits of bytes of
    /// pointers and functions become unknown. `PointerNumber` comes where it is no number, and else the
    /// same faults as of `write`. Condition: the field lies in the unit.
    pub fn write_field(
        &mut self,
        purpose: Purpose,
        order: Order,
        field: Field,
        value: Value,
        p: Value,
    ) -> Result<(), StoreFault>
        requires { field.first + field.width ≤ 32 }
        ensures ok { OnOk result (field_written purpose order field value self.old.objects p ≡ Ok self.new.objects) }
        ensures err { IfErr result (IsLeft self.old.objects p (with_field order field (number_or_zero value) (bytes_through self.old.objects p 4)) (field_written purpose order field value self.old.objects p) self.new.objects) }
        ensures made { self.new.made ≡ self.old.made }
    {
        match value {
            Value::Number(n) => {
                let place = self.target(purpose, p, 4, 4)?;
                store_field(&mut self.objects, place, order, field, n)?;
                Ok(())
            }
            _ => Err(StoreFault::Undefined(Cause::PointerNumber)),
        }
    }

    /// Assigns a structure of so many bytes: each byte is copied, an unknown one and one of a pointer or
    /// function too. The causes of its source come first, then those of its target, as of `write`, and then
    /// `Overlap`, where they overlap in part. After these nothing has changed, and after `Memory` some of
    /// its first bytes are copied. Condition: the alignment isn't 0.
    pub fn copy(
        &mut self,
        purpose: Purpose,
        from: Value,
        to: Value,
        size: u32,
        alignment: u32,
    ) -> Result<(), StoreFault>
        requires { 0 < alignment }
        ensures ok { OnOk result (copied purpose self.old.objects from to size alignment ≡ Ok self.new.objects) }
        ensures err { IfErr result (IsLeft self.old.objects to (bytes_through self.old.objects from size) (copied purpose self.old.objects from to size alignment) self.new.objects) }
        ensures made { self.new.made ≡ self.old.made }
    {
        let source = self.place(from, size, alignment)?;
        let target = self.target(purpose, to, size, alignment)?;
        if overlap_in_part(size, from, to) {
            return Err(StoreFault::Undefined(Cause::Overlap));
        }
        copy_bytes(&mut self.objects, source, target, size)?;
        Ok(())
    }

    /// Writes known bytes one behind the other, with the same faults as of `write`. Condition: there are
    /// fewer than 2^32.
    pub fn write_bytes(
        &mut self,
        purpose: Purpose,
        bytes: &[u8],
        p: Value,
    ) -> Result<(), StoreFault>
        requires few { length bytes.now < 2 ^ 32 }
        ensures ok { OnOk result (bytes_written purpose bytes.now self.old.objects p ≡ Ok self.new.objects) }
        ensures err { IfErr result (IsLeft self.old.objects p (known_bytes bytes.now) (bytes_written purpose bytes.now self.old.objects p) self.new.objects) }
        ensures made { self.new.made ≡ self.old.made }
    {
        let place = self.target(purpose, p, bytes.len() as u32, 1)?;
        store_bytes(&mut self.objects, place, bytes);
        Ok(())
    }

    /// Says whether nothing but an initialiser may write the object that a pointer points into. Nothing
    /// changes where it is no pointer or no object stands there.
    pub fn flag(&mut self, p: Value, constant: bool)
        ensures objects { self.new.objects ≡ flagged_through self.old.objects p constant }
        ensures made { self.new.made ≡ self.old.made }
    {
        if let Value::Pointer { object, .. } = p {
            flag_object(&mut self.objects, object.place as usize, constant);
        }
    }

    /// Makes each byte of an object zero, whatever it was made for, as an initialiser's list does first; or
    /// `Dead`.
    pub fn clear(&mut self, name: ObjectName) -> Result<(), Cause>
        ensures ok { OnOk result (zeroed self.old.objects name ≡ Ok self.new.objects) }
        ensures err { IfErr result (λ c. (zeroed self.old.objects name ≡ Err c) × (self.new ≡ self.old)) }
        ensures made { self.new.made ≡ self.old.made }
    {
        if !self.lives(name) {
            return Err(Cause::Dead);
        }
        clear_object(&mut self.objects, name.place as usize);
        Ok(())
    }
}

/// Whether a pointer or function is to be put into fewer than four bytes.
fn is_narrowed(width: Width, value: Value) -> bool
    ensures { result ≡ causes.is_narrowed width value }
{
    match (width, value) {
        (Width::Four, _) => false,
        (_, Value::Number(_)) => false,
        _ => true,
    }
}

/// Whether so many bytes at two places overlap, and aren't the same.
fn overlap_in_part(size: u32, p: Value, q: Value) -> bool
    ensures { result ≡ causes.overlaps_in_part size p q }
{
    match (p, q) {
        (
            Value::Pointer { object, offset },
            Value::Pointer {
                object: other,
                offset: start,
            },
        ) => same_object(object, other) && offset != start && offset.abs_diff(start) < size,
        _ => false,
    }
}

/// Stores a scalar in an object.
fn store_scalar(
    objects: &mut Vec<Object>,
    place: Place,
    order: Order,
    width: Width,
    value: Value,
) -> Result<(), Memory>
    requires whole { causes.is_narrowed width value ≡ false }
    requires there { place.object < length objects.old.items }
    requires inside { place.offset + bytes_in width ≤ length (contents (slice_get objects.old.items place.object)) }
    ensures ok { OnOk result (objects.new.items ≡ stored objects.old.items place.object place.offset (scalar_bytes order width value)) }
    ensures err { OnErr result ((count : ℕ) × (objects.new.items ≡ stored objects.old.items place.object place.offset (take count (scalar_bytes order width value)))) }
{
    objects[place.object].store(order, width, place.offset, value)
}

/// Stores a number in an object.
fn store_number(objects: &mut Vec<Object>, place: Place, order: Order, width: Width, n: u32)
    requires there { place.object < length objects.old.items }
    requires inside { place.offset + bytes_in width ≤ length (contents (slice_get objects.old.items place.object)) }
    ensures { objects.new.items ≡ stored objects.old.items place.object place.offset (scalar_bytes order width (Number n)) }
{
    objects[place.object].store_number(order, width, place.offset, n);
}

/// Stores a number in a field of a unit of an object.
fn store_field(
    objects: &mut Vec<Object>,
    place: Place,
    order: Order,
    field: Field,
    n: u32,
) -> Result<(), Memory>
    requires field { field.first + field.width ≤ 32 }
    requires there { place.object < length objects.old.items }
    requires inside { place.offset + 4 ≤ length (contents (slice_get objects.old.items place.object)) }
    ensures ok { OnOk result (objects.new.items ≡ stored objects.old.items place.object place.offset (with_field order field n (take 4 (drop place.offset (contents (slice_get objects.old.items place.object)))))) }
    ensures err { OnErr result ((count : ℕ) × (objects.new.items ≡ stored objects.old.items place.object place.offset (take count (with_field order field n (take 4 (drop place.offset (contents (slice_get objects.old.items place.object)))))))) }
{
    objects[place.object].store_field(order, field, place.offset, n)
}

/// Copies bytes of an object, from the first on, to others or themselves.
fn copy_bytes(objects: &mut Vec<Object>, from: Place, to: Place, size: u32) -> Result<(), Memory>
    requires source { from.object < length objects.old.items }
    requires target { to.object < length objects.old.items }
    requires read { from.offset + size ≤ length (contents (slice_get objects.old.items from.object)) }
    requires inside { to.offset + size ≤ length (contents (slice_get objects.old.items to.object)) }
    requires small { from.offset + size < 2 ^ 32 }
    requires small_target { to.offset + size < 2 ^ 32 }
    requires apart { from.object ≡ to.object → (from.offset ≡ to.offset) ⊎ ((from.offset + size ≤ to.offset) ⊎ (to.offset + size ≤ from.offset)) }
    ensures ok { OnOk result (objects.new.items ≡ stored objects.old.items to.object to.offset (take size (drop from.offset (contents (slice_get objects.old.items from.object))))) }
    ensures err { OnErr result ((count : ℕ) × (objects.new.items ≡ stored objects.old.items to.object to.offset (take count (take size (drop from.offset (contents (slice_get objects.old.items from.object))))))) }
{
    for k in 0..size {
        let byte = objects[from.object].byte(from.offset + k);
        objects[to.object].set(to.offset + k, byte)?;
    }
    Ok(())
}

/// Stores known bytes in an object.
fn store_bytes(objects: &mut Vec<Object>, place: Place, bytes: &[u8])
    requires there { place.object < length objects.old.items }
    requires inside { place.offset + length bytes.now ≤ length (contents (slice_get objects.old.items place.object)) }
    ensures { objects.new.items ≡ stored objects.old.items place.object place.offset (known_bytes bytes.now) }
{
    objects[place.object].put_known(place.offset, bytes);
}

/// Says whether nothing but an initialiser may write the object at a place, if one stands there.
fn flag_object(objects: &mut Vec<Object>, place: usize, constant: bool)
    ensures { objects.new.items ≡ flagged objects.old.items place constant }
{
    if place < objects.len() {
        objects[place].set_constant(constant);
    }
}

/// Makes each byte of an object zero.
fn clear_object(objects: &mut Vec<Object>, place: usize)
    requires { place < length objects.old.items }
    ensures { objects.new.items ≡ stored objects.old.items place 0 (replicate (length (contents (slice_get objects.old.items place))) (Bits 255 0)) }
{
    objects[place].clear();
}
