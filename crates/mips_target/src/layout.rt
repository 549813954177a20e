//! The layout of a MIPS stack frame: outgoing arguments, spill slots and the return address.
ghost use Rattle.std.specs.Prelude.{◌≡◌, ◌+◌, ◌≤◌, ◌<◌, ◌^◌};
ghost use Rattle.std.specs.Int.RustNames.{unsigned_abs};
ghost use Rattle.mips_target.specs.Frame.{slot_place, return_place, frame_size};

/// How a function's frame is laid out: how many words there are for the argument words of its
/// calls, from the stack pointer up, and how many spill slots behind them. Behind these is the
/// place to return to.
/// Source: Fraser and Hanson, A Retargetable C Compiler, chapter 16.
#[derive(Clone, Copy, Debug, PartialEq, Eq)]
pub struct Layout {
    pub arguments: u32,
    pub slots: u32,
}

impl Layout {
    /// The place of a spill slot, from 0, in bytes from the stack pointer.
    pub fn slot_place(self, slot: i32) -> u32
        requires { self.arguments + unsigned_abs slot < 2 ^ 30 }
        ensures { result ≡ slot_place self slot }
    {
        4 * (self.arguments + slot.unsigned_abs())
    }

    /// The place of the return address, in bytes from the stack pointer.
    pub fn return_place(self) -> u32
        requires { self.arguments + self.slots < 2 ^ 28 }
        ensures { result ≡ return_place self }
    {
        4 * (self.arguments + self.slots)
    }

    /// The bytes of the frame, a multiple of 8.
    pub fn frame_size(self) -> u32
        requires { self.arguments + self.slots < 2 ^ 28 }
        ensures { result ≡ frame_size self }
    {
        8 * ((self.arguments + self.slots + 2) / 2)
    }
}
