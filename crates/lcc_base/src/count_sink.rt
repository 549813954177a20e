//! A sink that only counts the bytes written to it.
ghost use Rattle.std.specs.Prelude.{◌≡◌, ℕ, ◌+◌, ◌-◌, ◌^◌, ◌<◌, ◌≤◌, length, min, None, IfOk, IsOkAnd};
ghost use Rattle.std.specs.Io.{WritesAtMost};
ghost use Rattle.std.specs.Io.KnownBytes.{WriteAppends};
ghost use Rattle.lcc_base.specs.Faults.{HasCause};

use crate::{Failed, Sink};
use std::marker::Model;

/// A sink that keeps nothing but how many bytes it took, up to 2^64 - 1, which contracts see as
/// that number. It never fails.
#[derive(Drop)]
pub struct CountSink {
    count: u64,
}

impl Model for CountSink {
    ghost Value = { ℕ };

    ghost view = { λ s. s.count };
}

impl CountSink {
    /// A sink that has taken nothing.
    pub fn new() -> Self
        ensures { result ≡ 0 }
    {
        CountSink { count: 0 }
    }

    /// How many bytes were taken, and 2^64 - 1 where it was more.
    pub fn count(&self) -> u64
        ensures { result ≡ self.now }
    {
        self.count
    }
}

impl Default for CountSink {
    ghost is_default = { λ s. s ≡ 0 };

    fn default() -> Self {
        CountSink::new()
    }
}

impl Sink for CountSink {
    ghost taken = { λ _. None };

    ghost faults = { λ _. 0 };

    /// As `Sink::write`; it takes the whole piece.
    fn write(&mut self, piece: &[u8]) -> Result<usize, Failed>
        ensures bound { WritesAtMost result piece.now }
        ensures some { 0 < length piece.now → IfOk result (λ n. 0 < n) }
        ensures bytes { WriteAppends None None result piece.now }
        ensures cause { HasCause 0 0 result }
        ensures capped { 0 ≤ 2 ^ 64 - 1 }

        ensures whole { IsOkAnd result (λ n. n ≡ length piece.now) }
        ensures counted { self.new ≡ min (self.old + length piece.now) (2 ^ 64 - 1) }
    {
        self.count = self.count.saturating_add(piece.len() as u64);
        Ok(piece.len())
    }
}
