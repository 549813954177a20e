//! A source that reads from bytes in memory.
ghost use Rattle.std.specs.Prelude.{◌≡◌, ℕ, ◌-◌, ◌^◌, ◌≤◌, List, drop, length, min, Some, vec_len, IsOkAnd};
ghost use Rattle.std.specs.Io.{ReadsAtMost};
ghost use Rattle.std.specs.Io.KnownBytes.{ReadConsumes};
ghost use Rattle.lcc_base.specs.Faults.{HasCause};

use crate::copy::copy_front;
use crate::{Failed, Source};
use std::marker::Model;

/// A source over bytes in memory, which contracts see as the bytes that are left. It never fails.
#[derive(Drop)]
pub struct FullSource {
    bytes: Vec<u8>,
    place: usize,
}

impl Model for FullSource {
    ghost Value = { List ℕ };

    ghost view = { λ s. drop s.place s.bytes.items };

    ghost invariant = { λ s. s.place ≤ vec_len s.bytes };
}

impl FullSource {
    /// A source of these bytes. It takes no memory.
    pub fn new(bytes: Vec<u8>) -> Self
        ensures { result ≡ bytes.items }
    {
        FullSource { bytes, place: 0 }
    }
}

impl Source for FullSource {
    ghost left = { λ s. Some s };

    ghost faults = { λ _. 0 };

    /// As `Source::read`, without a failure; it gives as many bytes as there are and fit.
    fn read(&mut self, into: &mut [u8]) -> Result<usize, Failed>
        ensures bound { ReadsAtMost result into.new }
        ensures bytes { ReadConsumes (Some self.old) (Some self.new) result into.new }
        ensures cause { HasCause 0 0 result }
        ensures capped { 0 ≤ 2 ^ 64 - 1 }
        ensures most { IsOkAnd result (λ n. n ≡ min (length self.old) (length into.old)) }
    {
        let n = copy_front(&self.bytes[self.place..], into);
        self.place += n;
        Ok(n)
    }
}
