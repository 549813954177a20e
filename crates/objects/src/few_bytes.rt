//! At most eight bytes, which take no memory of their own.
ghost use Rattle.std.specs.Prelude.{◌≡◌, ◌<◌, ◌≤◌, ◌+◌, set, length, take, replicate};
ghost use Rattle.objects.specs.Objects.{overwritten};

use crate::slices::{fill_slice, paste_slice};
use std::marker::Model;

/// At most eight bytes, which contracts see as their list.
#[derive(Drop)]
pub struct FewBytes {
    count: u8,
    bytes: [u8; 8],
}

impl Model for FewBytes {
    ghost use Rattle.std.specs.Prelude.{ℕ, ◌≤◌, List, take};

    ghost Value = { List ℕ };

    ghost view = { λ f. take f.count f.bytes };

    ghost invariant = { λ f. f.count ≤ 8 };
}

impl FewBytes {
    /// So many times a byte.
    #[inline(always)]
    pub fn filled(count: u8, byte: u8) -> Self
        requires { count ≤ 8 }
        ensures { result ≡ replicate count byte }
    {
        FewBytes {
            count,
            bytes: [byte; 8],
        }
    }

    /// These bytes.
    #[inline(always)]
    pub fn of(bytes: &[u8]) -> Self
        requires { length bytes.now ≤ 8 }
        ensures { result ≡ bytes.now }
    {
        let mut few = FewBytes::filled(bytes.len() as u8, 0);
        few.paste(0, bytes);
        few
    }

    /// How many they are.
    #[inline(always)]
    pub fn count(&self) -> usize
        ensures { result ≡ length self.now }
    {
        self.count as usize
    }

    /// The bytes.
    #[inline(always)]
    pub fn as_slice(&self) -> &[u8]
        ensures { result.now ≡ self.now }
    {
        &self.bytes[..self.count as usize]
    }

    /// Sets the byte at a place.
    #[inline(always)]
    pub fn set(&mut self, at: usize, byte: u8)
        requires { at < length self.old }
        ensures { self.new ≡ set self.old at byte }
    {
        self.bytes[at] = byte;
    }

    /// Writes bytes over those from a place on.
    #[inline(always)]
    pub fn paste(&mut self, at: usize, new: &[u8])
        requires { at + length new.now ≤ length self.old }
        ensures { self.new ≡ overwritten at new.now self.old }
    {
        paste_slice(&mut self.bytes, at, new);
    }

    /// Makes so many bytes from a place on full masks.
    #[inline(always)]
    pub fn fill_up(&mut self, at: usize, count: usize)
        requires { at + count ≤ length self.old }
        ensures { self.new ≡ overwritten at (replicate count 255) self.old }
    {
        fill_slice(&mut self.bytes, at, count);
    }

    /// Keeps the first so many.
    pub fn truncate(&mut self, count: usize)
        ensures { self.new ≡ take count self.old }
    {
        if count < self.count as usize {
            self.count = count as u8;
        }
    }

    /// Makes each zero.
    pub fn zero(&mut self)
        ensures { self.new ≡ replicate (length self.old) 0 }
    {
        self.bytes = [0; 8];
    }
}
