//! An object: its bytes as values, with masks of known bits behind them only where a bit is unknown, and
//! bytes of pointers and functions only where there are any.
ghost use Rattle.std.specs.Prelude.{◌≡◌, ◌<◌, ◌≤◌, ◌+◌, ◌^◌, ℕ, false, [], ◌∷◌, Some, length, take, drop, map, replicate, slice_get, Ok, IfOk, IfSome, OnOk, OnErr};
ghost use Rattle.objects.specs.Accesses.{number_given};
ghost use Rattle.objects.specs.Bytes.{known_bytes, number_bytes};
ghost use Rattle.objects.specs.Causes.{is_narrowed};
ghost use Rattle.objects.specs.Fields.{with_field};
ghost use Rattle.objects.specs.Objects.{with_bytes};
ghost use Rattle.objects.specs.Scalars.{scalar_of, scalar_bytes};
ghost use Rattle.objects.specs.Values.{bytes_in};
ghost use Rattle.objects.specs.declared.byte.Byte.TheVariants.{Bits};
ghost use Rattle.objects.specs.declared.value.Value.TheVariants.{Number};

use crate::content::Content;
use crate::conversions::to_scalar;
use crate::fields::write_field;
use crate::scalars::{given_number, half_bytes, parts, scalar as scalar_in, word_bytes};
use crate::slices::{are_full, number_at};
use crate::{Byte, Field, Scalar, Value, Width};
use lcc_base::{Cause, Memory, Order};
use std::alloc::Global;
use std::marker::Model;

/// An object in its lifetime, which contracts see as how many were made before it, whether nothing but its
/// initialiser may write it, and its bytes.
#[derive(Drop)]
pub struct Object {
    alloc: Global,
    made: u64,
    size: u32,
    constant: bool,
    content: Content,
}

const _: () = prove!(size_of::<Object>() == 32);

impl Model for Object {
    ghost use Rattle.std.specs.Prelude.{take, drop};
    ghost use Rattle.objects.specs.Contents.{bytes_of, parts_of};
    ghost use Rattle.objects.specs.Held.{held, IsHeld};
    ghost use Rattle.objects.specs.Objects as spec;

    ghost Value = { spec.Object };

    ghost view = { λ o. record { made = o.made; constant = o.constant; bytes = held (parts_of o.content) 0 (take o.size (bytes_of o.content)) (drop o.size (bytes_of o.content)) } };

    ghost invariant = { λ o. IsHeld o.size (bytes_of o.content) };
}

impl Object {
    /// An object of zero bytes.
    pub fn zeroed(alloc: Global, made: u64, constant: bool, size: u32) -> Result<Self, Memory>
        ensures { IfOk result (λ o. o ≡ record { made = made; constant = constant; bytes = replicate size (Bits 255 0) }) }
    {
        let content = Content::filled(alloc, size as usize, 0)?;
        Ok(Object {
            alloc,
            made,
            size,
            constant,
            content,
        })
    }

    /// An object of unknown bytes.
    pub fn unknown(alloc: Global, made: u64, constant: bool, size: u32) -> Result<Self, Memory>
        ensures { IfOk result (λ o. o ≡ record { made = made; constant = constant; bytes = replicate size (Bits 0 0) }) }
    {
        let content = Content::filled(alloc, 2 * size as usize, 0)?;
        Ok(Object {
            alloc,
            made,
            size,
            constant,
            content,
        })
    }

    /// An object of these bytes, all of whose bits are known.
    pub fn known(alloc: Global, made: u64, constant: bool, bytes: &[u8]) -> Result<Self, Memory>
        requires { length bytes.now < 2 ^ 32 }
        ensures { IfOk result (λ o. o ≡ record { made = made; constant = constant; bytes = known_bytes bytes.now }) }
    {
        let size = bytes.len() as u32;
        let content = Content::copied(alloc, bytes)?;
        Ok(Object {
            alloc,
            made,
            size,
            constant,
            content,
        })
    }

    /// An object that holds a value as a scalar of so many bytes. Condition: a pointer or function has four.
    pub fn of_scalar(
        alloc: Global,
        made: u64,
        constant: bool,
        order: Order,
        width: Width,
        value: Value,
    ) -> Result<Self, Memory>
        requires { is_narrowed width value ≡ false }
        ensures { IfOk result (λ o. o ≡ record { made = made; constant = constant; bytes = scalar_bytes order width value }) }
    {
        let mut object = Object::zeroed(alloc, made, constant, width.bytes())?;
        object.store(order, width, 0, value)?;
        Ok(object)
    }

    /// How many objects were made before it.
    pub fn made(&self) -> u64
        ensures { result ≡ self.now.made }
    {
        self.made
    }

    /// Whether nothing but its initialiser may write it.
    pub fn is_constant(&self) -> bool
        ensures { result ≡ self.now.constant }
    {
        self.constant
    }

    /// Says whether nothing but its initialiser may write it.
    pub fn set_constant(&mut self, constant: bool)
        ensures { self.new ≡ record { made = self.old.made; constant = constant; bytes = self.old.bytes } }
    {
        self.constant = constant;
    }

    /// How many bytes it has.
    pub fn size(&self) -> u32
        ensures { result ≡ length self.now.bytes }
    {
        self.size
    }

    /// The byte at a place.
    pub fn byte(&self, place: u32) -> Byte<Value>
        requires { place < length self.now.bytes }
        ensures { slice_get self.now.bytes place ≡ Some result }
    {
        self.byte_at(place as usize)
    }

    /// The byte at a place.
    fn byte_at(&self, at: usize) -> Byte<Value>
        requires { at < length self.now.bytes }
        ensures { slice_get self.now.bytes at ≡ Some result }
    {
        let size = self.size as usize;
        let bytes = self.content.bytes();
        let value = bytes[at];
        if bytes.len() == size {
            Byte::Bits { known: 255, value }
        } else {
            self.content.shown(at as u32, bytes[size + at], value)
        }
    }

    /// Sets the byte at a place. After `Memory` the object is as before.
    pub fn set(&mut self, place: u32, byte: Byte<Value>) -> Result<(), Memory>
        requires { place < length self.old.bytes }
        ensures ok { OnOk result (self.new ≡ with_bytes self.old place (byte ∷ [])) }
        ensures err { OnErr result (self.new ≡ self.old) }
    {
        self.set_at(place as usize, byte)
    }

    /// Sets the byte at a place.
    fn set_at(&mut self, at: usize, byte: Byte<Value>) -> Result<(), Memory>
        requires { at < length self.old.bytes }
        ensures ok { OnOk result (self.new ≡ with_bytes self.old at (byte ∷ [])) }
        ensures err { OnErr result (self.new ≡ self.old) }
    {
        match byte {
            Byte::Bits { known: 255, value } => {
                self.set_known(at, value);
                Ok(())
            }
            Byte::Bits { known, value } => self.set_bits(at, known, value),
            Byte::Part { .. } => self.set_part(at, byte),
        }
    }

    /// Sets the byte at a place, all of whose bits are known.
    fn set_known(&mut self, at: usize, value: u8)
        requires { at < length self.old.bytes }
        ensures { self.new ≡ with_bytes self.old at (Bits 255 value ∷ []) }
    {
        let size = self.size as usize;
        if self.content.count() == size {
            self.content.set(at, value);
        } else {
            self.content.set_masked(size, at, 255, value);
        }
    }

    /// Sets the byte at a place, some of whose bits are known.
    fn set_bits(&mut self, at: usize, known: u8, value: u8) -> Result<(), Memory>
        requires { at < length self.old.bytes }
        ensures ok { OnOk result (self.new ≡ with_bytes self.old at (Bits known value ∷ [])) }
        ensures err { OnErr result (self.new ≡ self.old) }
    {
        let size = self.size as usize;
        self.content.complete(self.alloc, size)?;
        self.content.remove_part(at as u32);
        self.content.set_masked(size, at, known, value);
        Ok(())
    }

    /// Sets the byte at a place to one of a pointer or function.
    fn set_part(&mut self, at: usize, part: Byte<Value>) -> Result<(), Memory>
        requires { at < length self.old.bytes }
        ensures ok { OnOk result (self.new ≡ with_bytes self.old at (part ∷ [])) }
        ensures err { OnErr result (self.new ≡ self.old) }
    {
        let size = self.size as usize;
        self.content.complete(self.alloc, size)?;
        self.content.insert_part(self.alloc, at as u32, part)?;
        self.content.set_masked(size, at, 0, 0);
        Ok(())
    }

    /// Sets the bytes from a place on. After `Memory` some of the first are set.
    pub fn put(&mut self, place: u32, bytes: &[Byte<Value>]) -> Result<(), Memory>
        requires { place + length bytes.now ≤ length self.old.bytes }
        ensures ok { OnOk result (self.new ≡ with_bytes self.old place bytes.now) }
        ensures err { OnErr result ((count : ℕ) × (self.new ≡ with_bytes self.old place (take count bytes.now))) }
    {
        let at = place as usize;
        for (k, byte) in bytes.iter().enumerate() {
            self.set_at(at + k, *byte)?;
        }
        Ok(())
    }

    /// Sets each byte to zero.
    pub fn clear(&mut self)
        ensures { self.new ≡ with_bytes self.old 0 (replicate (length self.old.bytes) (Bits 255 0)) }
    {
        self.content.clear(self.size as usize);
    }

    /// Sets the bytes from a place on, all of whose bits are known.
    #[inline(always)]
    pub fn put_known(&mut self, place: u32, bytes: &[u8])
        requires { place + length bytes.now ≤ length self.old.bytes }
        ensures { self.new ≡ with_bytes self.old place (known_bytes bytes.now) }
    {
        let at = place as usize;
        let size = self.size as usize;
        if self.content.count() == size {
            self.content.paste(at, bytes);
        } else if bytes.len() == size {
            self.content.replace(bytes);
        } else {
            self.content.paste_masked(size, at, bytes);
        }
    }

    /// Stores the low bytes of a number.
    pub fn store_number(&mut self, order: Order, width: Width, place: u32, n: u32)
        requires { place + bytes_in width ≤ length self.old.bytes }
        ensures { self.new ≡ with_bytes self.old place (known_bytes (number_bytes order (bytes_in width) n)) }
    {
        match width {
            Width::One => self.put_known(place, &[(n & 0xff) as u8]),
            Width::Two => self.put_known(place, &half_bytes(order, n)),
            Width::Four => self.put_known(place, &word_bytes(order, n)),
        }
    }

    /// Stores a value as a scalar of so many bytes. After `Memory` some of its first bytes are stored.
    /// Condition: a pointer or function has four.
    pub fn store(
        &mut self,
        order: Order,
        width: Width,
        place: u32,
        value: Value,
    ) -> Result<(), Memory>
        requires whole { is_narrowed width value ≡ false }
        requires inside { place + bytes_in width ≤ length self.old.bytes }
        ensures ok { OnOk result (self.new ≡ with_bytes self.old place (scalar_bytes order width value)) }
        ensures err { OnErr result ((count : ℕ) × (self.new ≡ with_bytes self.old place (take count (scalar_bytes order width value)))) }
    {
        match value {
            Value::Number(n) => {
                self.store_number(order, width, place, n);
                Ok(())
            }
            _ => self.put(place, &parts(order, value)),
        }
    }

    /// Stores a number's low bits in the field of the unit at a place. After `Memory` some of the unit's
    /// first bytes are stored.
    pub fn store_field(
        &mut self,
        order: Order,
        field: Field,
        place: u32,
        n: u32,
    ) -> Result<(), Memory>
        requires field { field.first + field.width ≤ 32 }
        requires inside { place + 4 ≤ length self.old.bytes }
        ensures ok { OnOk result (self.new ≡ with_bytes self.old place (with_field order field n (take 4 (drop place self.old.bytes)))) }
        ensures err { OnErr result ((count : ℕ) × (self.new ≡ with_bytes self.old place (take count (with_field order field n (take 4 (drop place self.old.bytes)))))) }
    {
        let unit = write_field(order, field, n, &self.unit(place));
        self.put(place, &unit)
    }

    /// The scalar of a type at a place. `Unknown` where a bit is unknown, else `PointerBytes` where some
    /// bytes are those of pointers or functions, and not all of one in order.
    pub fn load(&self, order: Order, scalar: Scalar, place: u32) -> Result<Value, Cause>
        requires { place + bytes_in scalar.width ≤ length self.now.bytes }
        ensures { result ≡ scalar_of order scalar (take (bytes_in scalar.width) (drop place self.now.bytes)) }
    {
        match self.known_number(order, scalar, place) {
            Some(n) => Ok(Value::Number(n)),
            None => self.load_bytes(order, scalar, place),
        }
    }

    /// The number that the scalar of a type at a place is, if it is one.
    pub fn number(&self, order: Order, scalar: Scalar, place: u32) -> Option<u32>
        requires { place + bytes_in scalar.width ≤ length self.now.bytes }
        ensures { result ≡ number_given (scalar_of order scalar (take (bytes_in scalar.width) (drop place self.now.bytes))) }
    {
        match self.known_number(order, scalar, place) {
            Some(n) => Some(n),
            None => given_number(self.load_bytes(order, scalar, place)),
        }
    }

    /// The same where all its bits are known by their masks; `None` says nothing.
    fn known_number(&self, order: Order, scalar: Scalar, place: u32) -> Option<u32>
        requires { place + bytes_in scalar.width ≤ length self.now.bytes }
        ensures { IfSome result (λ n. scalar_of order scalar (take (bytes_in scalar.width) (drop place self.now.bytes)) ≡ Ok (Number n)) }
    {
        let at = place as usize;
        let size = self.size as usize;
        let bytes = self.content.bytes();
        if bytes.len() == size || are_full(bytes, scalar.width, size + at) {
            let n = number_at(bytes, order, scalar.width, at);
            return Some(to_scalar(scalar, n));
        }
        None
    }

    /// The scalar of a type at a place, by its bytes.
    fn load_bytes(&self, order: Order, scalar: Scalar, place: u32) -> Result<Value, Cause>
        requires { place + bytes_in scalar.width ≤ length self.now.bytes }
        ensures { result ≡ scalar_of order scalar (take (bytes_in scalar.width) (drop place self.now.bytes)) }
    {
        match scalar.width {
            Width::One => scalar_in(order, scalar, &[self.byte(place)]),
            Width::Two => scalar_in(order, scalar, &self.pair(place)),
            Width::Four => scalar_in(order, scalar, &self.unit(place)),
        }
    }

    /// Two bytes from a place on.
    fn pair(&self, place: u32) -> [Byte<Value>; 2]
        requires { place + 2 ≤ length self.now.bytes }
        ensures { result ≡ take 2 (drop place self.now.bytes) }
    {
        let at = place as usize;
        [self.byte_at(at), self.byte_at(at + 1)]
    }

    /// Four bytes from a place on.
    pub fn unit(&self, place: u32) -> [Byte<Value>; 4]
        requires { place + 4 ≤ length self.now.bytes }
        ensures { result ≡ take 4 (drop place self.now.bytes) }
    {
        let at = place as usize;
        [
            self.byte_at(at),
            self.byte_at(at + 1),
            self.byte_at(at + 2),
            self.byte_at(at + 3),
        ]
    }
}
