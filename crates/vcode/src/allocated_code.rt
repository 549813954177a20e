//! Allocated code: instructions over a machine's registers, and how many spill slots they use.
ghost use Rattle.std.specs.Prelude.{◌≡◌};
ghost use Rattle.vcode.specs.VirtualCode.{MAllocated, NamesBelow};

use crate::target::Target;
use lcc_base::Items;
use std::marker::Model;

/// Code over a machine's registers, and the number of its spill slots. It names no virtual
/// register.
/// Source: Fraser and Hanson, A Retargetable C Compiler, chapter 15.
#[derive(Drop)]
pub struct Code<T: Target> {
    code: Items<T::Instr>,
    slots: u32,
}

impl<T: Target> Model for Code<T> {
    ghost use Rattle.vcode.specs.VirtualCode.{MAllocated, NamesBelow};

    ghost Value = { MAllocated T.Instr };

    ghost view = { λ c. record { code = c.code; slots = c.slots } };

    ghost invariant = { λ c. NamesBelow T.machine 64 c.code };
}

impl<T: Target> Code<T> {
    /// The code with so many spill slots. It takes no memory.
    pub fn new(code: Items<T::Instr>, slots: u32) -> Code<T>
        requires { NamesBelow T.machine 64 code }
        ensures { result ≡ record { code = code; slots = slots } }
    {
        Code { code, slots }
    }

    /// The instructions.
    pub fn code(&self) -> &[T::Instr]
        ensures value { result.now ≡ self.now.code }
        ensures is { NamesBelow T.machine 64 self.now.code }
    {
        self.code.as_slice()
    }

    /// The number of spill slots.
    pub fn slots(&self) -> u32
        ensures { result ≡ self.now.slots }
    {
        self.slots
    }

    /// The instructions, without an allocation.
    pub fn into_code(self) -> Items<T::Instr>
        ensures value { result ≡ self.code }
        ensures is { NamesBelow T.machine 64 result }
    {
        let Code { code, slots: _ } = self;
        code
    }
}
