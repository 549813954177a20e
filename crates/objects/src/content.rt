//! What an object keeps for its bytes: values and, behind them, masks, in place if they are at most eight,
//! and bytes of pointers and functions.
ghost use Rattle.std.specs.Prelude.{◌≡◌, ◌<◌, ◌≤◌, ℕ, ◌+◌, ◌^◌, ◌++◌, ◌==◌, Some, None, set, length, take, drop, replicate, IfOk, OnOk, OnErr, if◌then◌else◌};
ghost use Rattle.objects.specs.Contents.{bytes_of, parts_of};
ghost use Rattle.objects.specs.Held.{shown as shown_byte};
ghost use Rattle.objects.specs.Objects.{overwritten};

use crate::few_bytes::FewBytes;
use crate::slices::{complete, fill_up, paste, shown};
use crate::{Byte, Value};
use lcc_base::Memory;
use std::alloc::Global;
use std::collections::BTreeMap;

/// Bytes of any number, and bytes of pointers and functions by their places.
#[derive(Drop)]
pub struct ManyBytes {
    /// The values of the bytes, and behind them their masks, or none.
    pub bytes: Vec<u8>,
    /// The bytes of pointers and functions.
    pub parts: BTreeMap<u32, Byte<Value>>,
}

/// What an object keeps for its bytes.
#[derive(Drop)]
pub enum Content {
    /// At most eight values and masks, and no byte of a pointer or function.
    Few(FewBytes),
    /// All others.
    Many(Box<ManyBytes>),
}

const _: () = prove!(size_of::<Content>() == 16);

impl Content {
    /// So many times a byte, and no bytes of pointers and functions.
    #[inline(always)]
    pub fn filled(alloc: Global, count: usize, byte: u8) -> Result<Self, Memory>
        ensures bytes { IfOk result (λ c. bytes_of c ≡ replicate count byte) }
        ensures parts { IfOk result (λ c. (j : ℕ) → parts_of c j ≡ None) }
    {
        if count <= 8 {
            Ok(Content::Few(FewBytes::filled(count as u8, byte)))
        } else {
            let bytes = vec![in alloc; byte; count]?;
            Content::many(alloc, bytes)
        }
    }

    /// These bytes, and none of pointers and functions.
    #[inline(always)]
    pub fn copied(alloc: Global, bytes: &[u8]) -> Result<Self, Memory>
        ensures bytes { IfOk result (λ c. bytes_of c ≡ bytes.now) }
        ensures parts { IfOk result (λ c. (j : ℕ) → parts_of c j ≡ None) }
    {
        if bytes.len() <= 8 {
            Ok(Content::Few(FewBytes::of(bytes)))
        } else {
            let bytes = bytes.to_vec(alloc)?;
            Content::many(alloc, bytes)
        }
    }

    /// The bytes of a vector, and none of pointers and functions.
    fn many(alloc: Global, bytes: Vec<u8>) -> Result<Self, Memory>
        ensures bytes { IfOk result (λ c. bytes_of c ≡ bytes.items) }
        ensures parts { IfOk result (λ c. (j : ℕ) → parts_of c j ≡ None) }
    {
        let parts = BTreeMap::new(alloc);
        Ok(Content::Many(Box::new(alloc, ManyBytes { bytes, parts })?))
    }

    /// How many values and masks there are.
    #[inline(always)]
    pub fn count(&self) -> usize
        ensures { result ≡ length (bytes_of self.now) }
    {
        match self {
            Content::Few(few) => few.count(),
            Content::Many(many) => many.bytes.len(),
        }
    }

    /// The values, and behind them the masks, if there are any.
    #[inline(always)]
    pub fn bytes(&self) -> &[u8]
        ensures { result.now ≡ bytes_of self.now }
    {
        match self {
            Content::Few(few) => few.as_slice(),
            Content::Many(many) => &many.bytes,
        }
    }

    /// The byte at a place, given its mask and its value.
    #[inline(always)]
    pub fn shown(&self, place: u32, known: u8, value: u8) -> Byte<Value>
        ensures { result ≡ shown_byte (parts_of self.now place) known value }
    {
        match self {
            Content::Few(_) => Byte::Bits { known, value },
            Content::Many(many) => shown(&many.parts, place, known, value),
        }
    }

    /// Sets a value or mask.
    #[inline(always)]
    pub fn set(&mut self, at: usize, byte: u8)
        requires { at < length (bytes_of self.old) }
        ensures bytes { bytes_of self.new ≡ set (bytes_of self.old) at byte }
        ensures parts { parts_of self.new ≡ parts_of self.old }
    {
        match self {
            Content::Few(few) => few.set(at, byte),
            Content::Many(many) => many.bytes[at] = byte,
        }
    }

    /// Writes values or masks over those from a place on.
    #[inline(always)]
    pub fn paste(&mut self, at: usize, new: &[u8])
        requires { at + length new.now ≤ length (bytes_of self.old) }
        ensures bytes { bytes_of self.new ≡ overwritten at new.now (bytes_of self.old) }
        ensures parts { parts_of self.new ≡ parts_of self.old }
    {
        match self {
            Content::Few(few) => few.paste(at, new),
            Content::Many(many) => paste(&mut many.bytes, at, new),
        }
    }

    /// Makes so many masks full, from a place on.
    #[inline(always)]
    fn fill_up(&mut self, at: usize, count: usize)
        requires { at + count ≤ length (bytes_of self.old) }
        ensures bytes { bytes_of self.new ≡ overwritten at (replicate count 255) (bytes_of self.old) }
        ensures parts { parts_of self.new ≡ parts_of self.old }
    {
        match self {
            Content::Few(few) => few.fill_up(at, count),
            Content::Many(many) => fill_up(&mut many.bytes, at, count),
        }
    }

    /// Sets a byte of so many values, with its mask behind them.
    #[inline(always)]
    pub fn set_masked(&mut self, size: usize, at: usize, known: u8, value: u8)
        requires small { size < 2 ^ 32 }
        requires there { at < size }
        requires masked { length (bytes_of self.old) ≡ size + size }
        ensures values { take size (bytes_of self.new) ≡ set (take size (bytes_of self.old)) at value }
        ensures masks { drop size (bytes_of self.new) ≡ set (drop size (bytes_of self.old)) at known }
        ensures as_many { length (bytes_of self.new) ≡ length (bytes_of self.old) }
        ensures parts { parts_of self.new ≡ parts_of self.old }
    {
        self.set(at, value);
        self.set(size + at, known);
    }

    /// Writes bytes over those of so many values from a place on, and makes their masks behind them full.
    #[inline(always)]
    pub fn paste_masked(&mut self, size: usize, at: usize, new: &[u8])
        requires small { size < 2 ^ 32 }
        requires inside { at + length new.now ≤ size }
        requires masked { length (bytes_of self.old) ≡ size + size }
        ensures values { take size (bytes_of self.new) ≡ overwritten at new.now (take size (bytes_of self.old)) }
        ensures masks { drop size (bytes_of self.new) ≡ overwritten at (replicate (length new.now) 255) (drop size (bytes_of self.old)) }
        ensures as_many { length (bytes_of self.new) ≡ length (bytes_of self.old) }
        ensures parts { parts_of self.new ≡ parts_of self.old }
    {
        self.paste(at, new);
        self.fill_up(size + at, new.len());
    }

    /// Puts full masks behind so many values, if there are none. After `Memory` they are as before.
    pub fn complete(&mut self, alloc: Global, size: usize) -> Result<(), Memory>
        requires small { size < 2 ^ 32 }
        ensures ok { OnOk result (bytes_of self.new ≡ (if length (bytes_of self.old) == size then bytes_of self.old ++ replicate size 255 else bytes_of self.old)) }
        ensures err { OnErr result (bytes_of self.new ≡ bytes_of self.old) }
        ensures parts { (j : ℕ) → parts_of self.new j ≡ parts_of self.old j }
    {
        match self {
            Content::Few(few) => {
                if few.count() == size {
                    let more = completed(alloc, few, size)?;
                    *self = more;
                }
                Ok(())
            }
            Content::Many(many) => complete(&mut many.bytes, size),
        }
    }

    /// Puts a byte of a pointer or function at a place. After `Memory` all is as before.
    pub fn insert_part(&mut self, alloc: Global, at: u32, part: Byte<Value>) -> Result<(), Memory>
        ensures bytes { bytes_of self.new ≡ bytes_of self.old }
        ensures there { OnOk result (parts_of self.new at ≡ Some part) }
        ensures others { OnOk result ((j : ℕ) → (j ≡ at → ⊥) → parts_of self.new j ≡ parts_of self.old j) }
        ensures err { OnErr result ((j : ℕ) → parts_of self.new j ≡ parts_of self.old j) }
    {
        match self {
            Content::Few(few) => {
                let more = with_part(alloc, few, at, part)?;
                *self = more;
            }
            Content::Many(many) => {
                many.parts.insert(at, part)?;
            }
        }
        Ok(())
    }

    /// Takes away the byte of a pointer or function at a place, if there is one.
    pub fn remove_part(&mut self, at: u32)
        ensures bytes { bytes_of self.new ≡ bytes_of self.old }
        ensures none { parts_of self.new at ≡ None }
        ensures others { (j : ℕ) → (j ≡ at → ⊥) → parts_of self.new j ≡ parts_of self.old j }
    {
        match self {
            Content::Few(_) => {}
            Content::Many(many) => {
                many.parts.remove(&at);
            }
        }
    }

    /// Puts bytes in place of all; they are no more than there were.
    pub fn replace(&mut self, new: &[u8])
        requires { length new.now ≤ length (bytes_of self.old) }
        ensures { bytes_of self.new ≡ new.now }
    {
        if new.len() <= 8 {
            *self = Content::Few(FewBytes::of(new));
        } else {
            self.shrink(new.len());
            self.paste(0, new);
        }
    }

    /// Makes so many zeros of what there was.
    pub fn clear(&mut self, count: usize)
        requires { count ≤ length (bytes_of self.old) }
        ensures { bytes_of self.new ≡ replicate count 0 }
    {
        if count <= 8 {
            *self = Content::Few(FewBytes::filled(count as u8, 0));
        } else {
            self.shrink(count);
            self.zero();
        }
    }

    /// Keeps the first so many values, and no bytes of pointers and functions.
    fn shrink(&mut self, count: usize)
        ensures { bytes_of self.new ≡ take count (bytes_of self.old) }
    {
        match self {
            Content::Few(few) => few.truncate(count),
            Content::Many(many) => {
                many.bytes.truncate(count);
                many.parts.clear();
            }
        }
    }

    /// Makes each value and mask zero.
    fn zero(&mut self)
        ensures { bytes_of self.new ≡ replicate (length (bytes_of self.old)) 0 }
    {
        match self {
            Content::Few(few) => few.zero(),
            Content::Many(many) => many.bytes.fill(0),
        }
    }
}

/// So many values with full masks behind them.
fn completed(alloc: Global, few: &FewBytes, size: usize) -> Result<Content, Memory>
    requires small { size < 2 ^ 32 }
    requires all { length few.now ≡ size }
    ensures bytes { IfOk result (λ c. bytes_of c ≡ few.now ++ replicate size 255) }
    ensures parts { IfOk result (λ c. (j : ℕ) → parts_of c j ≡ None) }
{
    let mut more = Content::filled(alloc, 2 * size, 255)?;
    more.paste(0, few.as_slice());
    Ok(more)
}

/// These values and masks, and a byte of a pointer or function.
fn with_part(alloc: Global, few: &FewBytes, at: u32, part: Byte<Value>) -> Result<Content, Memory>
    ensures bytes { IfOk result (λ c. bytes_of c ≡ few.now) }
    ensures there { IfOk result (λ c. parts_of c at ≡ Some part) }
    ensures others { IfOk result (λ c. (j : ℕ) → (j ≡ at → ⊥) → parts_of c j ≡ None) }
{
    let bytes = few.as_slice().to_vec(alloc)?;
    let mut parts = BTreeMap::new(alloc);
    parts.insert(at, part)?;
    Ok(Content::Many(Box::new(alloc, ManyBytes { bytes, parts })?))
}
