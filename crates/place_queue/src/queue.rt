//! A priority queue of places, in which the key of a place that waits may be lowered.
ghost use Rattle.std.specs.Prelude.{◌≡◌, ◌-◌, ◌^◌, ◌<◌, length, replicate, slice_set, slice_index_or, IfOk};
ghost use Rattle.place_queue.specs.declared.key.Key.{Key};
ghost use Rattle.place_queue.specs.Leq.{Leq};
ghost use Rattle.place_queue.specs.Takes.{Takes};

use crate::heap::{Entry, add, remove_least};
use crate::key::Key;
use lcc_base::Memory;
use std::alloc::Global;
use std::marker::Model;

/// Places that wait, each with a key. Contracts see it as a list: for each place its key, or none
/// where it doesn't wait.
/// Source: Knuth, The Art of Computer Programming, volume 3, section 5.2.3 (heaps).
#[derive(Debug, Drop)]
pub struct Queue {
    // The first `size` of them are a heap.
    entries: Vec<Entry>,
    // For each place one more than the index of its entry, or 0 where it doesn't wait.
    slots: Vec<u32>,
    size: usize,
}

impl Model for Queue {
    ghost use Rattle.std.specs.Prelude.{List, Option};
    ghost use Rattle.place_queue.specs.declared.key.Key.{Key};

    ghost Value = { List (Option Key) };

    ghost use Rattle.place_queue.specs.Keys.{keys_in};
    ghost use Rattle.place_queue.specs.IsQueue.{IsQueue};

    ghost view = { λ q. keys_in q.entries.items q.slots.items q.size };

    ghost invariant = { λ q. IsQueue q.entries.items q.slots.items q.size };
}

impl Queue {
    /// Room for so many places, none of which waits. `Memory` comes where an allocation is refused.
    pub fn reserve(alloc: Global, places: usize) -> Result<Queue, Memory>
        requires { places < 2 ^ 32 - 1 }
        ensures { IfOk result (λ q. q ≡ replicate places None) }
    {
        let blank = Entry {
            cost: 0,
            count: 0,
            place: 0,
        };
        let entries = vec![in alloc; blank; places]?;
        let slots = vec![in alloc; 0; places]?;
        Ok(Queue {
            entries,
            slots,
            size: 0,
        })
    }

    /// How many places there are.
    pub fn places(&self) -> usize
        ensures { result ≡ length self.now }
    {
        self.slots.len()
    }

    /// Lets a place wait with a key, or with a smaller one than before.
    pub fn put(&mut self, place: usize, key: Key)
        requires within { place < length self.old }
        requires lower { (old : Key) → slice_index_or self.old place None ≡ Some old → Leq key old }
        ensures { self.new ≡ slice_set self.old place (Some key) }
    {
        self.size = add(&mut self.entries, &mut self.slots, self.size, place, key);
    }

    /// Takes a place whose key is none greater than any other's, none where no place waits.
    pub fn take(&mut self) -> Option<(usize, Key)>
        ensures { Takes self.old result self.new }
    {
        if self.size == 0 {
            return None;
        }
        let least = remove_least(&mut self.entries, &mut self.slots, self.size);
        self.size -= 1;
        Some(least)
    }
}
