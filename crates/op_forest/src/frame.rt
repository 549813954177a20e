//! Stack frames: slots that don't overlap, below the frame's top.
ghost use Rattle.std.specs.Prelude.{◌≡◌, ◌++◌, [], IfOk, OnOk, OnErr};
ghost use Rattle.op_forest.specs.Frames.{IsFrame, lowest, lowest_from};

use lcc_base::{Items, Memory};
use std::alloc::Global;
use std::cmp::min;
use std::marker::Model;

/// A part of a frame: the place of its first byte from the frame's top, and its size, in bytes.
#[derive(Clone, Copy, Debug, PartialEq, Eq)]
pub struct Slot {
    pub offset: i32,
    pub size: u32,
}

/// The slots of a function's frame, which contracts see as a list. Each begins at a multiple of 4
/// and ends at the frame's top or below, and no two share a byte.
#[derive(Debug, Drop)]
pub struct Frame {
    slots: Vec<Slot>,
    // Where the lowest slot begins, or the frame's top.
    lowest: i32,
}

impl Model for Frame {
    ghost use Rattle.std.specs.Prelude.{List};
    ghost use Rattle.op_forest.specs.declared.frame.Slot.{Slot};
    ghost use Rattle.op_forest.specs.Frames.{IsFramed};

    ghost Value = { List Slot };

    ghost view = { λ f. f.slots.items };

    ghost invariant = { λ f. IsFramed f.slots.items f.lowest };
}

impl Frame {
    /// A frame without a slot, without an allocation.
    pub fn new(alloc: Global) -> Self
        ensures { result ≡ [] }
    {
        Frame {
            slots: Vec::new(alloc),
            lowest: 0,
        }
    }

    /// A frame of these slots, without an allocation.
    pub fn of_slots(slots: Items<Slot>) -> Self
        requires { IsFrame slots }
        ensures { result ≡ slots }
    {
        let lowest = lowest_from(0, slots.as_slice());
        Frame {
            slots: slots.into_vec(),
            lowest,
        }
    }

    /// A copy of the frame.
    pub fn copied(alloc: Global, frame: &Frame) -> Result<Self, Memory>
        ensures { IfOk result (λ copy. copy ≡ frame.now) }
    {
        let mut slots = Vec::new(alloc);
        slots.extend_from_slice(frame.slots())?;
        Ok(Frame {
            slots,
            lowest: frame.lowest,
        })
    }

    /// Adds slots behind those that are there, in time by their number. `Memory` comes where an allocation is refused; the frame
    /// is as before then.
    pub fn extend(&mut self, slots: &[Slot]) -> Result<(), Memory>
        requires { IsFrame (self.old ++ slots.now) }
        ensures ok { OnOk result (self.new ≡ self.old ++ slots.now) }
        ensures err { OnErr result (self.new ≡ self.old) }
    {
        self.slots.extend_from_slice(slots)?;
        self.lowest = lowest_from(self.lowest, slots);
        Ok(())
    }

    /// The slots in order.
    pub fn slots(&self) -> &[Slot]
        ensures value { result.now ≡ self.now }
        ensures is { IsFrame self.now }
    {
        self.slots.as_slice()
    }

    /// Where the lowest slot begins, or the frame's top. It is kept, so that no slot is looked at.
    pub fn lowest(&self) -> i32
        ensures value { result ≡ lowest self.now }
        ensures is { IsFrame self.now }
    {
        self.lowest
    }
}

// The least of a place and of those where the slots begin.
fn lowest_from(place: i32, slots: &[Slot]) -> i32
    ensures { result ≡ lowest_from place slots.now }
{
    let mut lowest = place;
    for slot in slots {
        lowest = min(lowest, slot.offset);
    }
    lowest
}
