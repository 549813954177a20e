//! The objects that live, and what is read through pointers to them.
//! Source: C89, 3.1.2.4, 3.3 to 3.3.9, in the profile of this compiler.
ghost use Rattle.std.specs.Prelude.{◌≡◌, ◌<◌, ◌≤◌, ◌+◌, ◌^◌, ◌%◌, ◌↔◌, IsTrue, [], Some, None, false, length, not, is_none, replicate, take, IfOk, IfErr, OnOk, OnErr};
ghost use Rattle.objects.specs.Accesses.{read_cause, write_cause, read as read_through, number_given, field_read};
ghost use Rattle.objects.specs.Bytes.{known_bytes};
ghost use Rattle.objects.specs.Causes as causes;
ghost use Rattle.objects.specs.Objects.{object_of, is_constant, next_name, with_object, ended};
ghost use Rattle.objects.specs.Places.{GoesTo};
ghost use Rattle.objects.specs.Pointers.{moved, ordered, subtracted, compared, tested};
ghost use Rattle.objects.specs.Scalars.{scalar_bytes};
ghost use Rattle.objects.specs.Values.{bytes_in};
ghost use Rattle.objects.specs.declared.byte.Byte.TheVariants.{Bits};
ghost use Rattle.objects.specs.declared.value.Value.TheVariants.{Pointer};

use crate::fields::read_field;
use crate::place::Place;
use crate::pointers::{
    compare_pointers, move_pointer, order_pointers, subtract_pointers, test_pointer,
};
use crate::{Field, Object, ObjectName, Purpose, Scalar, Value, Width};
use lcc_base::{Cause, Memory, Order};
use std::alloc::Global;
use std::cmp::Ordering;
use std::marker::Model;

/// The objects that live, by their places, and how many were made. A place is used again when the lifetime
/// of its object is over, and the object's memory is then given up; a pointer to the old object stays dead.
#[derive(Drop)]
pub struct Storage {
    alloc: Global,
    pub(crate) objects: Vec<Object>,
    made: u64,
}

impl Model for Storage {
    ghost use Rattle.objects.specs.Objects as spec;

    ghost Value = { spec.Storage };

    ghost view = { λ s. record { objects = s.objects.items; made = s.made } };
}

impl Storage {
    /// No objects, and none made.
    pub fn new(alloc: Global) -> Self
        ensures objects { result.objects ≡ [] }
        ensures made { result.made ≡ 0 }
    {
        Storage {
            alloc,
            objects: Vec::new(alloc),
            made: 0,
        }
    }

    /// How many objects live.
    pub fn count(&self) -> usize
        ensures { result ≡ length self.now.objects }
    {
        self.objects.len()
    }

    /// Makes an object of so many zero bytes, behind those that live, and gives its name. After `Memory`
    /// nothing has changed; it comes too where 2^32 objects live or 2^64 - 1 were made.
    pub fn make_zeroed(&mut self, constant: bool, size: u32) -> Result<ObjectName, Memory>
        ensures name { IfOk result (λ name. name ≡ next_name self.old size) }
        ensures ok { OnOk result (self.new ≡ with_object self.old constant (replicate size (Bits 255 0))) }
        ensures err { OnErr result (self.new ≡ self.old) }
    {
        let object = Object::zeroed(self.alloc, self.made, constant, size)?;
        self.add(object, size)
    }

    /// Makes an object of so many unknown bytes, as `make_zeroed`.
    pub fn make_unknown(&mut self, constant: bool, size: u32) -> Result<ObjectName, Memory>
        ensures name { IfOk result (λ name. name ≡ next_name self.old size) }
        ensures ok { OnOk result (self.new ≡ with_object self.old constant (replicate size (Bits 0 0))) }
        ensures err { OnErr result (self.new ≡ self.old) }
    {
        let object = Object::unknown(self.alloc, self.made, constant, size)?;
        self.add(object, size)
    }

    /// Makes an object of these bytes, as `make_zeroed`. `Memory` comes too where they are 2^32 or more.
    pub fn make_known(&mut self, constant: bool, bytes: &[u8]) -> Result<ObjectName, Memory>
        ensures name { IfOk result (λ name. name ≡ next_name self.old (length bytes.now)) }
        ensures ok { OnOk result (self.new ≡ with_object self.old constant (known_bytes bytes.now)) }
        ensures err { OnErr result (self.new ≡ self.old) }
    {
        if bytes.len() > u32::MAX as usize {
            return Err(Memory);
        }
        let object = Object::known(self.alloc, self.made, constant, bytes)?;
        self.add(object, bytes.len() as u32)
    }

    /// Makes an object that holds a value as a scalar of so many bytes, as `make_zeroed`. Condition: a
    /// pointer or function has four.
    pub fn make_scalar(
        &mut self,
        constant: bool,
        order: Order,
        width: Width,
        value: Value,
    ) -> Result<ObjectName, Memory>
        requires whole { causes.is_narrowed width value ≡ false }
        ensures name { IfOk result (λ name. name ≡ next_name self.old (bytes_in width)) }
        ensures ok { OnOk result (self.new ≡ with_object self.old constant (scalar_bytes order width value)) }
        ensures err { OnErr result (self.new ≡ self.old) }
    {
        let object = Object::of_scalar(self.alloc, self.made, constant, order, width, value)?;
        self.add(object, width.bytes())
    }

    /// Takes an object of so many bytes, the next that is made.
    fn add(&mut self, object: Object, size: u32) -> Result<ObjectName, Memory>
        requires { object.made ≡ self.old.made }
        ensures name { IfOk result (λ name. name ≡ next_name self.old size) }
        ensures ok { OnOk result (self.new ≡ with_object self.old object.constant object.bytes) }
        ensures err { OnErr result (self.new ≡ self.old) }
    {
        let place = self.objects.len();
        if place > u32::MAX as usize || self.made == u64::MAX {
            return Err(Memory);
        }
        let name = ObjectName {
            place: place as u32,
            made: self.made,
            size,
        };
        self.objects.push(object)?;
        self.made += 1;
        Ok(name)
    }

    /// Ends the lifetimes of all objects but the first so many. It takes as long as these are many.
    pub fn end(&mut self, count: usize)
        ensures { self.new ≡ ended self.old count }
    {
        self.objects.truncate(count);
    }

    /// Whether the object of a name is in its lifetime.
    pub fn lives(&self, name: ObjectName) -> bool
        ensures { result ≡ not (is_none (object_of self.now.objects name)) }
    {
        match self.objects.get(name.place as usize) {
            Some(object) => object.made() == name.made && object.size() == name.size,
            None => false,
        }
    }

    /// Whether it points to an object past its lifetime.
    pub fn is_dead(&self, p: Value) -> bool
        ensures { result ≡ causes.is_dead self.now.objects p }
    {
        match p {
            Value::Pointer { object, .. } => !self.lives(object),
            _ => false,
        }
    }

    /// The value moved by so many bytes. `Dead` and `PointerRange` come in this order.
    pub fn move_by(&self, p: Value, by: i64) -> Result<Value, Cause>
        ensures { result ≡ moved self.now.objects p by }
    {
        move_pointer(self.is_dead(p), p, by)
    }

    /// Which of two values is the smaller. `Dead` and `PointerOrder` come in this order.
    pub fn order(&self, p: Value, q: Value) -> Result<Ordering, Cause>
        ensures { result ≡ ordered self.now.objects p q }
    {
        order_pointers(self.is_dead(p) || self.is_dead(q), p, q)
    }

    /// How many elements of so many bytes lie between two values; `PointerOrder` where an element has none.
    /// `Dead` and `PointerOrder` come in this order.
    pub fn subtract(&self, element: u32, p: Value, q: Value) -> Result<Value, Cause>
        ensures { result ≡ subtracted self.now.objects element p q }
    {
        subtract_pointers(self.is_dead(p) || self.is_dead(q), element, p, q)
    }

    /// Whether two values are equal. `Dead` and `PointerEqual` come in this order.
    pub fn compare(&self, p: Value, q: Value) -> Result<bool, Cause>
        ensures { result ≡ compared self.now.objects p q }
    {
        compare_pointers(self.is_dead(p) || self.is_dead(q), p, q)
    }

    /// Whether a value holds as a test, or `Dead`.
    pub fn test(&self, p: Value) -> Result<bool, Cause>
        ensures { result ≡ tested self.now.objects p }
    {
        test_pointer(self.is_dead(p), p)
    }

    /// The scalar of a type at a place. `Outside`, `Misaligned` and `Dead` come in this order, and then the
    /// causes of its bytes.
    pub fn read(&self, order: Order, scalar: Scalar, p: Value) -> Result<Value, Cause>
        ensures { result ≡ read_through order scalar self.now.objects p }
    {
        let size = scalar.width.bytes();
        let place = self.place(p, size, size)?;
        self.objects[place.object].load(order, scalar, place.offset)
    }

    /// The number that the scalar of a type at a place is, if it can be read and is one.
    pub fn number(&self, order: Order, scalar: Scalar, p: Value) -> Option<u32>
        ensures { result ≡ number_given (read_through order scalar self.now.objects p) }
    {
        let size = scalar.width.bytes();
        match self.place(p, size, size) {
            Ok(place) => self.objects[place.object].number(order, scalar, place.offset),
            Err(_) => None,
        }
    }

    /// The number of a bit-field whose unit is at a place, with the same causes. Condition: it has bits and
    /// lies in the unit.
    pub fn read_field(&self, order: Order, field: Field, p: Value) -> Result<Value, Cause>
        requires some { 1 ≤ field.width }
        requires inside { field.first + field.width ≤ 32 }
        ensures { result ≡ field_read order field self.now.objects p }
    {
        let place = self.place(p, 4, 4)?;
        let unit = self.objects[place.object].unit(place.offset);
        read_field(order, field, &unit)
    }

    /// Where an access of so many bytes goes. `Outside`, `Misaligned` and `Dead` come in this order.
    pub(crate) fn place(&self, p: Value, size: u32, alignment: u32) -> Result<Place, Cause>
        requires { 0 < alignment }
        ensures ok { IfOk result (λ place. GoesTo self.now.objects p size place.object place.offset) }
        ensures small { IfOk result (λ place. place.offset + size < 2 ^ 32) }
        ensures allowed { OnOk result (read_cause self.now.objects p size alignment ≡ None) }
        ensures err { IfErr result (λ c. read_cause self.now.objects p size alignment ≡ Some c) }
    {
        match p {
            Value::Pointer { object, offset } => self.place_in(object, offset, size, alignment),
            _ => Err(Cause::Outside),
        }
    }

    /// The same at an offset in an object.
    fn place_in(
        &self,
        object: ObjectName,
        offset: u32,
        size: u32,
        alignment: u32,
    ) -> Result<Place, Cause>
        requires { 0 < alignment }
        ensures ok { IfOk result (λ place. GoesTo self.now.objects (Pointer object offset) size place.object place.offset) }
        ensures small { IfOk result (λ place. place.offset + size < 2 ^ 32) }
        ensures allowed { OnOk result (read_cause self.now.objects (Pointer object offset) size alignment ≡ None) }
        ensures err { IfErr result (λ c. read_cause self.now.objects (Pointer object offset) size alignment ≡ Some c) }
    {
        if (object.size as u64) < offset as u64 + size as u64 {
            Err(Cause::Outside)
        } else if !is_aligned(offset, alignment) {
            Err(Cause::Misaligned)
        } else if !self.lives(object) {
            Err(Cause::Dead)
        } else {
            Ok(Place {
                object: object.place as usize,
                offset,
            })
        }
    }

    /// Where a store of so many bytes goes. `Outside`, `Misaligned`, `Dead` and `ReadOnly` come in this
    /// order.
    pub(crate) fn target(
        &self,
        purpose: Purpose,
        p: Value,
        size: u32,
        alignment: u32,
    ) -> Result<Place, Cause>
        requires { 0 < alignment }
        ensures ok { IfOk result (λ place. GoesTo self.now.objects p size place.object place.offset) }
        ensures small { IfOk result (λ place. place.offset + size < 2 ^ 32) }
        ensures allowed { OnOk result (write_cause purpose self.now.objects p size alignment ≡ None) }
        ensures err { IfErr result (λ c. write_cause purpose self.now.objects p size alignment ≡ Some c) }
    {
        let place = self.place(p, size, alignment)?;
        if purpose == Purpose::Assignment && self.objects[place.object].is_constant() {
            Err(Cause::ReadOnly)
        } else {
            Ok(place)
        }
    }
}

/// Whether an offset is a multiple of the alignment; of 1, 2 and 4 it is told without a division.
fn is_aligned(offset: u32, alignment: u32) -> bool
    requires { 0 < alignment }
    ensures { IsTrue result ↔ (offset % alignment ≡ 0) }
{
    match alignment {
        1 => true,
        2 => offset % 2 == 0,
        4 => offset % 4 == 0,
        _ => offset % alignment == 0,
    }
}
