//! A binary heap of places by their keys, with an index from each place to its entry.
ghost use Rattle.std.specs.Prelude.{◌≡◌, ◌+◌, ◌-◌, ◌*◌, ◌^◌, ◌<◌, ◌↔◌, IsTrue, length, slice_set, slice_index_or};
ghost use Rattle.place_queue.specs.declared.key.Key.{Key};
ghost use Rattle.place_queue.specs.Leq.{Leq};
ghost use Rattle.place_queue.specs.Heap.{LeqEntry, IsHeap, HasHole, IsAbove, IsBelow, IsLeastChild};
ghost use Rattle.place_queue.specs.Keys.{keys_in, keys_with};
ghost use Rattle.place_queue.specs.IsQueue.{IsQueue};
ghost use Rattle.place_queue.specs.Linked.{AreLinked, AreLinkedBut};
ghost use Rattle.place_queue.specs.Takes.{Takes};

use crate::key::Key;

/// A place that waits, and its key.
#[derive(Clone, Copy, Debug)]
pub struct Entry {
    pub cost: u64,
    pub count: u32,
    pub place: u32,
}

impl Entry {
    // Whether its key is no greater.
    fn is_at_most(&self, other: &Entry) -> bool
        ensures { IsTrue result ↔ LeqEntry self.now other.now }
    {
        self.cost < other.cost || self.cost == other.cost && self.count <= other.count
    }
}

// Writes an entry at an index, and the index at its place.
fn settle(entries: &mut [Entry], slots: &mut [u32], at: usize, entry: Entry)
    requires at { at < length entries.old }
    requires place { entry.place < length slots.old }
    requires few { length entries.old < 2 ^ 32 - 1 }
    ensures entries { entries.new ≡ slice_set entries.old at entry }
    ensures slots { slots.new ≡ slice_set slots.old entry.place (at + 1) }
{
    slots[entry.place as usize] = at as u32 + 1;
    entries[at] = entry;
}

// Puts an entry where the heap has a hole, or above it. The entries that are greater move down.
fn rise(entries: &mut [Entry], slots: &mut [u32], start: usize, entry: Entry)
    requires few { length entries.old < 2 ^ 32 - 1 }
    requires hole { HasHole entries.old start }
    requires above { IsAbove entries.old start entry }
    requires linked { AreLinkedBut entries.old slots.old (keys_with entries.old slots.old start entry) start entry }
    ensures heap { IsHeap entries.new }
    ensures linked { AreLinked entries.new slots.new (keys_with entries.old slots.old start entry) }
{
    let mut at = start;
    while at > 0 {
        let above = (at - 1) / 2;
        let parent = entries[above];
        if parent.is_at_most(&entry) {
            break;
        }
        settle(entries, slots, at, parent);
        at = above;
    }
    settle(entries, slots, at, entry);
}

// The lesser of the one or two children of an entry that has some.
fn least_child(entries: &[Entry], at: usize) -> usize
    requires { 2 * at + 1 < length entries.now }
    ensures { IsLeastChild entries.now at result }
{
    let left = 2 * at + 1;
    let right = left + 1;
    if right < entries.len() && !entries[left].is_at_most(&entries[right]) {
        right
    } else {
        left
    }
}

// Puts an entry where the heap has a hole at its root, or below it. The entries that are less move
// up.
fn sink(entries: &mut [Entry], slots: &mut [u32], entry: Entry)
    requires few { length entries.old < 2 ^ 32 - 1 }
    requires hole { HasHole entries.old 0 }
    requires linked { AreLinkedBut entries.old slots.old (keys_with entries.old slots.old 0 entry) 0 entry }
    ensures heap { IsHeap entries.new }
    ensures linked { AreLinked entries.new slots.new (keys_with entries.old slots.old 0 entry) }
{
    let mut at = 0;
    while at < entries.len() / 2 {
        let below = least_child(entries, at);
        let child = entries[below];
        if entry.is_at_most(&child) {
            break;
        }
        settle(entries, slots, at, child);
        at = below;
    }
    settle(entries, slots, at, entry);
}

/// Adds an entry to the first `size` ones, or puts it in the stead of its place's one that is no
/// less. Tells how many there are then.
pub fn add(entries: &mut [Entry], slots: &mut [u32], size: usize, place: usize, key: Key) -> usize
    requires queue { IsQueue entries.old slots.old size }
    requires place { place < length slots.old }
    requires lower { (old : Key) → slice_index_or (keys_in entries.old slots.old size) place None ≡ Some old → Leq key old }
    ensures queue { IsQueue entries.new slots.new result }
    ensures keys { keys_in entries.new slots.new result ≡ slice_set (keys_in entries.old slots.old size) place (Some key) }
{
    let entry = Entry {
        cost: key.cost,
        count: key.count,
        place: place as u32,
    };
    let slot = slots[place] as usize;
    if slot == 0 {
        let end = size + 1;
        rise(&mut entries[..end], slots, size, entry);
        end
    } else {
        rise(&mut entries[..size], slots, slot - 1, entry);
        size
    }
}

/// Takes the least of the first `size` entries: its place and key. There is one less then.
pub fn remove_least(entries: &mut [Entry], slots: &mut [u32], size: usize) -> (usize, Key)
    requires queue { IsQueue entries.old slots.old size }
    requires some { 0 < size }
    ensures queue { IsQueue entries.new slots.new (size - 1) }
    ensures takes { Takes (keys_in entries.old slots.old size) (Some result) (keys_in entries.new slots.new (size - 1)) }
{
    let first = entries[0];
    let key = Key {
        cost: first.cost,
        count: first.count,
    };
    let least = (first.place as usize, key);
    let end = size - 1;
    slots[least.0] = 0;
    if end > 0 {
        let last = entries[end];
        sink(&mut entries[..end], slots, last);
    }
    least
}
