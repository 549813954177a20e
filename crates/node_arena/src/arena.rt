//! An arena of values in chunks, which never move and are found by their ids.
ghost use Rattle.std.specs.Prelude.{◌≡◌, ◌+◌, ◌-◌, ◌^◌, ◌<◌, ◌≤◌, ◌++◌, ◌∷◌, [], length, take, slice_get, Some, IfErr, IfOk, OnOk, OnErr, IsOk};
ghost use Rattle.std.specs.Borrow.{sem};

use crate::chunks::{cut, place_of, put};
use crate::elements::two;
use lcc_base::Memory;
use std::alloc::Global;
use std::cmp::max;
use std::marker::Model;

/// The least number of values in a further chunk.
const LEAST_CHUNK: usize = 32;

/// Values that stay where they are: an id is a value's place in the order of pushes.
///
/// Contracts see the list of the values, and how many more there is room for.
#[derive(Drop)]
pub struct Arena<T> {
    chunks: Vec<Vec<T>>,
    // The first chunk with room, or how many chunks there are.
    current: usize,
    len: u32,
    spare: usize,
}

impl<T> Model for Arena<T> {
    ghost use Rattle.node_arena.specs.Values.{Values, arena_of, values_code};
    ghost use Rattle.node_arena.specs.Chunks.{values_of, AreChunks};

    ghost Value = { Values T };

    ghost coded = { values_code T.code };

    ghost view = { λ a. arena_of (values_of a.chunks.items) a.spare };

    ghost invariant = { λ a. AreChunks a.chunks.items a.current a.len a.spare };
}

impl<T> Arena<T> {
    ghost use Rattle.node_arena.specs.ArenaLends.{LendsValue};

    /// An empty arena, without an allocation.
    pub fn new(alloc: Global) -> Self
        ensures values { result.values ≡ [] }
        ensures spare { result.spare ≡ 0 }
    {
        Arena {
            chunks: Vec::new(alloc),
            current: 0,
            len: 0,
            spare: 0,
        }
    }

    /// How many values there are.
    pub fn len(&self) -> u32
        ensures { result ≡ length self.now.values }
    {
        self.len
    }

    /// How many values can be pushed before memory is asked for.
    pub fn spare(&self) -> usize
        ensures { result ≡ self.now.spare }
    {
        self.spare
    }

    /// The length, to which `release` goes back.
    pub fn mark(&self) -> u32
        ensures { result ≡ length self.now.values }
    {
        self.len
    }

    /// The value with an id.
    pub fn get(&self, id: u32) -> &T
        requires { id < length self.now.values }
        ensures { slice_get self.now.values id ≡ Some result.now }
    {
        let chunks = self.chunks.as_slice();
        let place = place_of(chunks, id as usize);
        &chunks[place.chunk][place.item]
    }

    /// The value with an id, to be changed.
    pub fn get_mut(&mut self, id: u32) -> &mut T
        requires { id < length self.old.values }
        ensures* lends { sem 𝓛 (LendsValue T.row self.entry id result) }
        ensures value { slice_get self.old.values id ≡ Some result.now }
    {
        let place = place_of(&self.chunks, id as usize);
        let chunk = &mut self.chunks[place.chunk];
        &mut chunk[place.item]
    }

    /// The value with the lower id, and the value with the higher id, to be changed.
    pub fn pair(&mut self, lo: u32, hi: u32) -> (&T, &mut T)
        requires ordered { lo < hi }
        requires inside { hi < length self.old.values }
        ensures* lends { sem 𝓛 (LendsValue T.row self.entry hi result.1) }
        ensures read { slice_get self.old.values lo ≡ Some result.0.now }
        ensures write { slice_get self.old.values hi ≡ Some result.1.now }
    {
        let low = place_of(&self.chunks, lo as usize);
        let high = place_of(&self.chunks, hi as usize);
        if low.chunk == high.chunk {
            let chunk = &mut self.chunks[low.chunk];
            two(chunk, low.item, high.item)
        } else {
            let (read, write) = two(&mut self.chunks, low.chunk, high.chunk);
            (&read[low.item], &mut write[high.item])
        }
    }

    /// Makes room, so that this many values can be pushed without asking for memory. After an error
    /// the arena is as before. `Memory` comes where an allocation is refused, or where more places
    /// than a `usize` can count would stand.
    pub fn reserve(&mut self, number: usize) -> Result<(), Memory>
        ensures values { self.new.values ≡ self.old.values }
        ensures ok { OnOk result (number ≤ self.new.spare) }
        ensures grows { self.old.spare ≤ self.new.spare }
        ensures succeeds { number ≤ self.old.spare → IsOk result }
        ensures err { OnErr result (self.new ≡ self.old) }
    {
        if number <= self.spare {
            return Ok(());
        }
        self.add_chunk(number - self.spare)
    }

    /// Adds a value at the end, and tells its id. Memory is asked for only where nothing is spare;
    /// where it is refused the value comes back, and the arena is as before.
    pub fn push(&mut self, value: T) -> Result<u32, T>
        requires { length self.old.values < 2 ^ 32 - 1 }
        ensures id { IfOk result (λ id. id ≡ length self.old.values) }
        ensures values { OnOk result (self.new.values ≡ self.old.values ++ value ∷ []) }
        ensures spare { OnOk result (self.old.spare ≤ self.new.spare + 1) }
        ensures succeeds { 0 < self.old.spare → IsOk result }
        ensures full { OnErr result (self.old.spare ≡ 0) }
        ensures returned { IfErr result (λ back. back ≡ value) }
        ensures err { OnErr result (self.new ≡ self.old) }
    {
        if self.spare == 0 {
            let room = max(self.len as usize, LEAST_CHUNK);
            if self.add_chunk(room).is_err() {
                return Err(value);
            }
        }
        Ok(self.put(value))
    }

    // Takes a further chunk with room for so many values.
    fn add_chunk(&mut self, room: usize) -> Result<(), Memory>
        requires { 0 < room }
        ensures values { self.new.values ≡ self.old.values }
        ensures ok { OnOk result (self.new.spare ≡ self.old.spare + room) }
        ensures err { OnErr result (self.new ≡ self.old) }
    {
        if usize::MAX - self.len as usize - self.spare < room {
            return Err(Memory);
        }
        self.chunks.reserve(1)?;
        let chunk = Vec::with_capacity(*self.chunks.allocator(), room)?;
        self.chunks.push_reserved(chunk);
        self.spare += room;
        Ok(())
    }

    // Adds a value where there is room, and tells its id.
    fn put(&mut self, value: T) -> u32
        requires spare { 0 < self.old.spare }
        requires few { length self.old.values < 2 ^ 32 - 1 }
        ensures id { result ≡ length self.old.values }
        ensures values { self.new.values ≡ self.old.values ++ value ∷ [] }
        ensures spare { self.new.spare + 1 ≡ self.old.spare }
    {
        let id = self.len;
        self.current = put(&mut self.chunks, self.current, value);
        self.len += 1;
        self.spare -= 1;
        id
    }
}

impl<T: Drop> Arena<T> {
    /// Drops the values from a mark on. Their places are spare then.
    pub fn release(&mut self, mark: u32)
        requires { mark ≤ length self.old.values }
        ensures values { self.new.values ≡ take mark self.old.values }
        ensures spare { self.new.spare ≡ self.old.spare + (length self.old.values - mark) }
    {
        self.current = cut(&mut self.chunks, mark as usize);
        self.spare += (self.len - mark) as usize;
        self.len = mark;
    }
}
