//! Loads and stores of bytes, halfwords and words in the machine's memory.
ghost use Rattle.std.specs.Prelude.{◌≡◌, ◌⊎◌, ℕ, ◌+◌, ◌-◌, ◌<◌, ◌≤◌, [], ◌∷◌, true, false, length, IfOk, IfErr, OnOk, OnErr, MatchOption};
ghost use Rattle.asm_text.specs.Addresses.{data_start, floor_of};
ghost use Rattle.asm_text.specs.Linked.{half_bytes, word_bytes};
ghost use Rattle.asm_text.specs.Runs.{MStep, IsStuck};
ghost use Rattle.lcc_base.specs.declared.order.Order.{Order};
ghost use Rattle.lcc_base.specs.NumberIn.{number_in};
ghost use Rattle.asm_lines.specs.declared.operator.StoreOp.TheVariants as store;
ghost use Rattle.mips_machine.specs.Did.{Did};
ghost use Rattle.mips_machine.specs.Memory.{is_in_stack, is_in_data, bytes_at, with_bytes_at, sign_extended, load_size, loaded, store_size, stored};
ghost use Rattle.mips_machine.specs.State.{Cpu};
ghost use Rattle.mips_machine.specs.StepTable.{register, accesses, writes, goes, next};

use crate::free_register::FreeRegister;
use crate::processor::Processor;
use asm_text::{DATA_START, LoadOp, Register, Step, StoreOp, StuckCause};
use lcc_base::{Order, join, split};

/// The word of a byte, of which the highest bit is its sign.
fn extend_byte(n: u8) -> u32
    ensures { result ≡ sign_extended 8 n }
{
    if n < 0x80 {
        n as u32
    } else {
        n as u32 + 0xffff_ff00
    }
}

/// The word of a number of 16 bits, of which the highest is its sign.
fn extend_half(n: u16) -> u32
    ensures { result ≡ sign_extended 16 n }
{
    if n < 0x8000 {
        n as u32
    } else {
        n as u32 + 0xffff_0000
    }
}

/// The number of two bytes.
fn join_half(order: Order, first: u8, second: u8) -> u16
    ensures { result ≡ number_in order (first ∷ second ∷ []) }
{
    match order {
        Order::Big => first as u16 * 256 + second as u16,
        Order::Little => second as u16 * 256 + first as u16,
    }
}

/// The low two bytes of a word.
fn split_half(order: Order, n: u32) -> [u8; 2]
    ensures is { result ≡ half_bytes order n }
    ensures two { length result ≡ 2 }
{
    let high = (n >> 8 & 0xff) as u8;
    let low = (n & 0xff) as u8;
    match order {
        Order::Big => [high, low],
        Order::Little => [low, high],
    }
}

/// The four bytes of a word.
fn split_word(order: Order, n: u32) -> [u8; 4]
    ensures is { result ≡ word_bytes order n }
    ensures four { length result ≡ 4 }
{
    split(order, n)
}

impl Processor {
    /// The place in the stack of so many bytes from the address on, if all are there.
    #[inline(always)]
    fn stack_place(&self, size: usize, address: u32) -> Option<usize>
        requires { size ≤ 4 }
        ensures { MatchOption result (is_in_stack self.now size address ≡ false) (λ i. (is_in_stack self.now size address ≡ true) × (i ≡ address - floor_of (length self.now.stack)) × (i + size ≤ length self.now.stack)) }
    {
        let place = address.wrapping_sub(self.floor()) as usize;
        if place + size <= self.stack.len() {
            Some(place)
        } else {
            None
        }
    }

    /// The same in the data.
    #[inline(always)]
    fn data_place(&self, size: usize, address: u32) -> Option<usize>
        requires { size ≤ 4 }
        ensures { MatchOption result (is_in_data self.now size address ≡ false) (λ i. (is_in_data self.now size address ≡ true) × (i ≡ address - data_start) × (i + size ≤ length self.now.statics)) }
    {
        let place = address.wrapping_sub(DATA_START) as usize;
        if place + size <= self.statics.len() {
            Some(place)
        } else {
            None
        }
    }

    /// So many bytes from the address on, or why they can't be accessed.
    #[inline(always)]
    fn bytes(&self, size: usize, address: u32) -> Result<&[u8], StuckCause>
        requires { (size ≡ 1) ⊎ (size ≡ 2) ⊎ (size ≡ 4) }
        ensures found { IfOk result (λ bytes. bytes.now ≡ bytes_at self.now size address) }
        ensures size { IfOk result (λ bytes. length bytes.now ≡ size) }
        ensures can { OnOk result ((done : MStep Cpu) → accesses self.now size address done ≡ done) }
        ensures cause { IfErr result (λ cause. (done : MStep Cpu) → accesses self.now size address done ≡ IsStuck cause self.now.pc) }
    {
        let bytes = if let Some(place) = self.stack_place(size, address) {
            &self.stack[place..place + size]
        } else if let Some(place) = self.data_place(size, address) {
            &self.statics[place..place + size]
        } else {
            return Err(StuckCause::Outside);
        };
        if address as usize & size - 1 == 0 {
            Ok(bytes)
        } else {
            Err(StuckCause::Misaligned)
        }
    }

    /// The byte at the address, or why it can't be accessed.
    fn byte(&self, address: u32) -> Result<u8, StuckCause>
        ensures is { IfOk result (λ n. (order : Order) → n ≡ number_in order (bytes_at self.now 1 address)) }
        ensures can { OnOk result ((done : MStep Cpu) → accesses self.now 1 address done ≡ done) }
        ensures cause { IfErr result (λ cause. (done : MStep Cpu) → accesses self.now 1 address done ≡ IsStuck cause self.now.pc) }
    {
        let bytes = self.bytes(1, address)?;
        Ok(bytes[0])
    }

    /// The number of the two bytes from the address on, or why they can't be accessed.
    fn half(&self, order: Order, address: u32) -> Result<u16, StuckCause>
        ensures is { IfOk result (λ n. n ≡ number_in order (bytes_at self.now 2 address)) }
        ensures can { OnOk result ((done : MStep Cpu) → accesses self.now 2 address done ≡ done) }
        ensures cause { IfErr result (λ cause. (done : MStep Cpu) → accesses self.now 2 address done ≡ IsStuck cause self.now.pc) }
    {
        let bytes = self.bytes(2, address)?;
        Ok(join_half(order, bytes[0], bytes[1]))
    }

    /// The number of the four bytes from the address on, or why they can't be accessed.
    #[inline(always)]
    fn word(&self, order: Order, address: u32) -> Result<u32, StuckCause>
        ensures is { IfOk result (λ n. n ≡ number_in order (bytes_at self.now 4 address)) }
        ensures can { OnOk result ((done : MStep Cpu) → accesses self.now 4 address done ≡ done) }
        ensures cause { IfErr result (λ cause. (done : MStep Cpu) → accesses self.now 4 address done ≡ IsStuck cause self.now.pc) }
    {
        Ok(join(order, self.bytes(4, address)?))
    }

    /// The word that a load gives, or why it can't read.
    #[inline(always)]
    fn loaded(&self, order: Order, op: LoadOp, address: u32) -> Result<u32, StuckCause>
        ensures is { IfOk result (λ n. n ≡ loaded order self.now op address) }
        ensures can { OnOk result ((done : MStep Cpu) → accesses self.now (load_size op) address done ≡ done) }
        ensures cause { IfErr result (λ cause. (done : MStep Cpu) → accesses self.now (load_size op) address done ≡ IsStuck cause self.now.pc) }
    {
        match op {
            LoadOp::Byte => Ok(extend_byte(self.byte(address)?)),
            LoadOp::ByteUnsigned => Ok(self.byte(address)? as u32),
            LoadOp::Half => Ok(extend_half(self.half(order, address)?)),
            LoadOp::HalfUnsigned => Ok(self.half(order, address)? as u32),
            LoadOp::Word => self.word(order, address),
        }
    }

    /// The register gets what a load gives, and the next instruction comes.
    pub fn load(&mut self, order: Order, op: LoadOp, d: Register, address: u32) -> Step
        requires { self.old.pc < data_start }
        ensures { Did (accesses self.old (load_size op) address (writes self.old d (loaded order self.old op address))) self.old self.new result }
    {
        match self.loaded(order, op, address) {
            Ok(n) => self.write(d, n),
            Err(cause) => Step::Stuck(cause, self.pc),
        }
    }

    /// The same for a register that takes any word.
    #[inline(always)]
    pub fn load_free(&mut self, order: Order, op: LoadOp, d: FreeRegister, address: u32) -> Step
        requires { self.old.pc < data_start }
        ensures { Did (accesses self.old (load_size op) address (writes self.old d (loaded order self.old op address))) self.old self.new result }
    {
        match self.loaded(order, op, address) {
            Ok(n) => self.set(d, n),
            Err(cause) => Step::Stuck(cause, self.pc),
        }
    }

    /// Writes the bytes from the address on, or gives why they can't be accessed.
    #[inline(always)]
    fn put_bytes(&mut self, address: u32, bytes: &[u8]) -> Result<(), StuckCause>
        requires { (length bytes.now ≡ 1) ⊎ (length bytes.now ≡ 2) ⊎ (length bytes.now ≡ 4) }
        ensures put { OnOk result (self.new ≡ with_bytes_at self.old address bytes.now) }
        ensures can { OnOk result ((done : MStep Cpu) → accesses self.old (length bytes.now) address done ≡ done) }
        ensures cause { IfErr result (λ cause. (done : MStep Cpu) → accesses self.old (length bytes.now) address done ≡ IsStuck cause self.old.pc) }
        ensures kept { OnErr result (self.new ≡ self.old) }
    {
        let size = bytes.len();
        let is_aligned = address as usize & size - 1 == 0;
        if let Some(place) = self.stack_place(size, address) {
            if !is_aligned {
                return Err(StuckCause::Misaligned);
            }
            self.stack[place..place + size].copy_from_slice(bytes);
            Ok(())
        } else if let Some(place) = self.data_place(size, address) {
            if !is_aligned {
                return Err(StuckCause::Misaligned);
            }
            self.statics[place..place + size].copy_from_slice(bytes);
            Ok(())
        } else {
            Err(StuckCause::Outside)
        }
    }

    /// Writes the bytes of a word, or gives why they can't be accessed. Each order has code of its own, so that a compiler
    /// sees one store.
    #[inline(always)]
    fn put_word(&mut self, order: Order, n: u32, address: u32) -> Result<(), StuckCause>
        ensures put { OnOk result (self.new ≡ stored order self.old store.Word address n) }
        ensures can { OnOk result ((done : MStep Cpu) → accesses self.old 4 address done ≡ done) }
        ensures cause { IfErr result (λ cause. (done : MStep Cpu) → accesses self.old 4 address done ≡ IsStuck cause self.old.pc) }
        ensures kept { OnErr result (self.new ≡ self.old) }
    {
        match order {
            Order::Big => self.put_bytes(address, &split_word(Order::Big, n)),
            Order::Little => self.put_bytes(address, &split_word(Order::Little, n)),
        }
    }

    /// Writes the bytes of a store, the low ones of a word, or gives why they can't be accessed.
    #[inline(always)]
    fn put(&mut self, order: Order, op: StoreOp, n: u32, address: u32) -> Result<(), StuckCause>
        ensures put { OnOk result (self.new ≡ stored order self.old op address n) }
        ensures can { OnOk result ((done : MStep Cpu) → accesses self.old (store_size op) address done ≡ done) }
        ensures cause { IfErr result (λ cause. (done : MStep Cpu) → accesses self.old (store_size op) address done ≡ IsStuck cause self.old.pc) }
        ensures kept { OnErr result (self.new ≡ self.old) }
    {
        match op {
            StoreOp::Byte => self.put_bytes(address, &[(n & 0xff) as u8]),
            StoreOp::Half => self.put_bytes(address, &split_half(order, n)),
            StoreOp::Word => self.put_word(order, n, address),
        }
    }

    /// The low bytes of the register are stored at the address, and the next instruction comes.
    #[inline(always)]
    pub fn store(&mut self, order: Order, op: StoreOp, s: Register, address: u32) -> Step
        requires { self.old.pc < data_start }
        ensures { Did (accesses self.old (store_size op) address (goes (stored order (next self.old) op address (register self.old s)))) self.old self.new result }
    {
        match self.put(order, op, self.get(s), address) {
            Ok(()) => self.go_on(),
            Err(cause) => Step::Stuck(cause, self.pc),
        }
    }
}
