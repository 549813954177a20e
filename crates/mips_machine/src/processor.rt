//! The processor's state: registers, static data, stack and program counter.
ghost use Rattle.std.specs.Prelude.{◌≡◌, ◌+◌, ◌-◌, ◌%◌, ◌<◌, ◌≤◌, length, slice_set};
ghost use Rattle.asm_text.specs.Addresses.{data_start, floor_of};
ghost use Rattle.mips_machine.specs.Did.{Did};
ghost use Rattle.mips_machine.specs.Run.{first_registers};
ghost use Rattle.mips_machine.specs.StepTable.{register, goes, next, writes, value_of, address_in, target_of, jumps, calls};

use crate::free_register::FreeRegister;
use asm_text::{Address, END_AT, Register, STACK_TOP, Step, Target, Value};
use std::marker::Model;

/// The registers, the data, the stack and the address of the next instruction.
///
/// The registers stand last: so a compiler sees that a write of one of them changes no other field.
#[derive(Drop)]
pub struct Processor {
    pub(crate) pc: u32,
    pub(crate) statics: Vec<u8>,
    pub(crate) stack: Vec<u8>,
    pub(crate) registers: [u32; 32],
}

impl Model for Processor {
    ghost use Rattle.std.specs.Prelude.{◌≤◌, length};
    ghost use Rattle.mips_machine.specs.State.{Cpu};

    ghost Value = { Cpu };

    ghost view = { λ c. record { registers = c.registers; statics = c.statics.items; stack = c.stack.items; pc = c.pc } };

    ghost invariant = { λ c. (length c.statics.items ≤ 33554432) × (length c.stack.items ≤ 16777216) };
}

impl Processor {
    /// The state at the start, with these data and this stack, at this address.
    pub fn new(statics: Vec<u8>, stack: Vec<u8>, pc: u32) -> Self
        requires statics { length statics.items ≤ 33554432 }
        requires stack { length stack.items ≤ 16777216 }
        ensures { result ≡ record { registers = first_registers; statics = statics.items; stack = stack.items; pc = pc } }
    {
        let mut registers = [0; 32];
        registers[29] = 0x7ffe_ffe0;
        registers[31] = END_AT;
        registers[5] = 0x7ffe_fff8;
        Processor {
            pc,
            statics,
            stack,
            registers,
        }
    }

    /// The address of the next instruction.
    pub fn pc(&self) -> u32
        ensures { result ≡ self.now.pc }
    {
        self.pc
    }

    /// What the register of this number holds.
    #[inline(always)]
    pub fn register(&self, number: u8) -> u32
        requires { number < 32 }
        ensures { result ≡ register self.now number }
    {
        self.registers[number as usize]
    }

    /// What the register holds.
    #[inline(always)]
    pub fn get(&self, r: Register) -> u32
        ensures { result ≡ register self.now r }
    {
        self.register(r.number())
    }

    /// The number or what the register holds.
    pub fn value(&self, t: Value) -> u32
        ensures { result ≡ value_of self.now t }
    {
        match t {
            Value::Register(r) => self.get(r),
            Value::Number(n) => n,
        }
    }

    /// The word that an address stands for.
    #[inline(always)]
    pub fn address(&self, a: Address<u32>) -> u32
        ensures { result ≡ address_in self.now a }
    {
        let name = a.name.unwrap_or(0);
        let base = match a.base {
            Some(r) => self.get(r),
            None => 0,
        };
        name.wrapping_add(a.offset).wrapping_add(base)
    }

    /// The address to which a target leads.
    pub fn target(&self, to: Target<u32>) -> u32
        ensures { result ≡ target_of self.now to }
    {
        match to {
            Target::Label(address) => address,
            Target::Register(r) => self.get(r),
        }
    }

    /// The lowest address of the stack.
    #[inline(always)]
    pub fn floor(&self) -> u32
        ensures is { result ≡ floor_of (length self.now.stack) }
        ensures low { result ≤ STACK_TOP }
        ensures high { 0x7eff_0000 ≤ result }
    {
        STACK_TOP - self.stack.len() as u32
    }

    /// The next instruction comes.
    #[inline(always)]
    pub fn go_on(&mut self) -> Step
        requires { self.old.pc < data_start }
        ensures { Did (goes (next self.old)) self.old self.new result }
    {
        self.pc += 4;
        Step::Went
    }

    /// The register gets the number, and the next instruction comes.
    pub fn write(&mut self, d: Register, n: u32) -> Step
        requires { self.old.pc < data_start }
        ensures { Did (writes self.old d n) self.old self.new result }
    {
        let d = d.number();
        if d == 29 && (n < self.floor() || n > STACK_TOP) {
            return Step::StackOut(self.pc);
        }
        if d != 0 {
            self.registers[d as usize] = n;
        }
        self.go_on()
    }

    /// The same for a register that takes any word.
    #[inline(always)]
    pub fn set(&mut self, d: FreeRegister, n: u32) -> Step
        requires { self.old.pc < data_start }
        ensures { Did (writes self.old d n) self.old self.new result }
    {
        self.registers[d.number() as usize] = n;
        self.go_on()
    }

    /// Goes on at the address.
    #[inline(always)]
    pub fn jump(&mut self, address: u32) -> Step
        ensures { Did (jumps self.old address) self.old self.new result }
    {
        self.pc = address;
        Step::Went
    }

    /// `$31` gets the address behind this instruction, and it goes on at the address.
    pub fn call(&mut self, address: u32) -> Step
        requires { self.old.pc < data_start }
        ensures { Did (calls self.old address) self.old self.new result }
    {
        self.registers[31] = self.pc + 4;
        self.pc = address;
        Step::Went
    }
}
