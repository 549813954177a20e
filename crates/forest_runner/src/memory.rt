//! The memory of a run: bytes with addresses, the program's objects at the low end, and above them the frames of the open calls.
use crate::halt::Halt;
use lcc_base::{Order, split};
use std::alloc::Global;

/// The address of the first byte.
pub(crate) const START: u32 = 0x1000_0000;

/// The most bytes that there may be.
const MOST: usize = 0x1000_0000;

/// What a byte holds that nothing was stored in.
const UNKNOWN: u8 = 0xA5;

#[derive(Drop)]
pub(crate) struct Memory {
    bytes: Vec<u8>,
    order: Order,
}

impl Memory {
    pub(crate) fn new(alloc: Global, order: Order) -> Self {
        Memory {
            bytes: Vec::new(alloc),
            order,
        }
    }

    /// The address behind the last byte.
    pub(crate) fn end(&self) -> Result<u32, Halt> {
        match u32::try_from(self.bytes.len()) {
            Ok(length) => Ok(START.wrapping_add(length)),
            Err(_) => Err(Halt::Deep),
        }
    }

    /// Adds a byte.
    pub(crate) fn push(&mut self, byte: u8) -> Result<(), Halt> {
        self.bytes.push(byte)?;
        Ok(())
    }

    /// Adds these bytes.
    pub(crate) fn extend(&mut self, more: &[u8]) -> Result<(), Halt> {
        self.bytes.extend_from_slice(more)?;
        Ok(())
    }

    /// Adds a word.
    pub(crate) fn push_word(&mut self, word: u32) -> Result<(), Halt> {
        self.extend(&split(self.order, word))
    }

    /// Adds bytes that hold this until the next address is a multiple of 8.
    pub(crate) fn align(&mut self) -> Result<(), Halt> {
        for _ in 0..8 {
            if self.bytes.len() % 8 == 0 {
                return Ok(());
            }
            self.bytes.push(UNKNOWN)?;
        }
        Ok(())
    }

    /// Adds so many bytes that hold nothing known.
    pub(crate) fn reserve(&mut self, count: u32) -> Result<(), Halt> {
        let Some(length) = self.bytes.len().checked_add(count as usize) else {
            return Err(Halt::Deep);
        };
        if length > MOST {
            return Err(Halt::Deep);
        }
        self.bytes.resize(length, UNKNOWN)?;
        Ok(())
    }

    /// Adds so many zero bytes.
    pub(crate) fn zeros(&mut self, count: u32) -> Result<(), Halt> {
        for _ in 0..count {
            self.bytes.push(0)?;
        }
        Ok(())
    }

    /// How many bytes there are.
    pub(crate) fn length(&self) -> usize {
        self.bytes.len()
    }

    /// Takes the bytes behind so many away.
    pub(crate) fn cut(&mut self, length: usize) {
        self.bytes.truncate(length);
    }

    /// The number of so many bytes from the address on, which is a multiple of their number.
    pub(crate) fn load(&self, address: u32, width: u32) -> Result<u32, Halt> {
        if !is_aligned(address, width) {
            return Err(Halt::Stuck);
        }
        let mut number = 0;
        for i in 0..width {
            let byte = u32::from(self.byte(address.wrapping_add(i))?);
            number |= byte.wrapping_shl(self.shift(i, width));
        }
        Ok(number)
    }

    /// So many low bytes of a number are stored from the address on, which is a multiple of their number.
    pub(crate) fn store(&mut self, address: u32, width: u32, number: u32) -> Result<(), Halt> {
        if !is_aligned(address, width) {
            return Err(Halt::Stuck);
        }
        for i in 0..width {
            let byte = (number.wrapping_shr(self.shift(i, width)) & 0xFF) as u8;
            self.set_byte(address.wrapping_add(i), byte)?;
        }
        Ok(())
    }

    /// So many bytes are copied.
    pub(crate) fn copy(&mut self, to: u32, from: u32, size: u32) -> Result<(), Halt> {
        for i in 0..size {
            let byte = self.byte(from.wrapping_add(i))?;
            self.set_byte(to.wrapping_add(i), byte)?;
        }
        Ok(())
    }

    // How far byte i of so many stands to the left in their number.
    fn shift(&self, i: u32, width: u32) -> u32 {
        let place = match self.order {
            Order::Little => i,
            Order::Big => width.wrapping_sub(1).wrapping_sub(i),
        };
        place.wrapping_mul(8)
    }

    fn byte(&self, address: u32) -> Result<u8, Halt> {
        let place = address.wrapping_sub(START) as usize;
        match self.bytes.get(place) {
            Some(byte) => Ok(*byte),
            None => Err(Halt::Stuck),
        }
    }

    fn set_byte(&mut self, address: u32, byte: u8) -> Result<(), Halt> {
        let place = address.wrapping_sub(START) as usize;
        if place < self.bytes.len() {
            self.bytes[place] = byte;
            Ok(())
        } else {
            Err(Halt::Stuck)
        }
    }
}

// Whether an address is a multiple of a width of 1, 2 or 4.
fn is_aligned(address: u32, width: u32) -> bool {
    address & width.wrapping_sub(1) == 0
}
