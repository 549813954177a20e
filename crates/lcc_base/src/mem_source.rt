//! A source in memory, whose reads fail where they are told to.
ghost use Rattle.std.specs.Prelude.{◌≡◌, ◌+◌, ◌-◌, ◌^◌, ◌≤◌, ◌↔◌, length, min, Some, IfOk, IsErr, MatchResult, Contains};
ghost use Rattle.std.specs.Io.{ReadsAtMost};
ghost use Rattle.std.specs.Io.KnownBytes.{ReadConsumes};
ghost use Rattle.lcc_base.specs.Faults.{HasCause};

use crate::copy::copy_front;
use crate::{Failed, Source};
use std::marker::Model;

/// A source over bytes in memory, whose n-th read fails exactly where n is in a list.
#[derive(Drop)]
pub struct MemSource {
    bytes: Vec<u8>,
    place: usize,
    reads: u64,
    failing: Vec<u64>,
    faults: u64,
}

impl Model for MemSource {
    ghost use Rattle.std.specs.Prelude.{◌-◌, ◌^◌, ◌≤◌, drop, vec_len};
    ghost use Rattle.lcc_base.specs.MemSourceState.{MemSourceState};

    ghost Value = { MemSourceState };

    ghost view = { λ s. record { left = drop s.place s.bytes.items; reads = s.reads; failing = s.failing.items; faults = s.faults } };

    ghost invariant = { λ s. (s.place ≤ vec_len s.bytes) × (s.faults ≤ 2 ^ 64 - 1) };
}

impl MemSource {
    /// A source of these bytes. The read with number n, from 1, fails exactly where n is in
    /// `failing`. It takes no memory.
    pub fn new(bytes: Vec<u8>, failing: Vec<u64>) -> Self
        ensures { result ≡ record { left = bytes.items; reads = 0; failing = failing.items; faults = 0 } }
    {
        MemSource {
            bytes,
            place: 0,
            reads: 0,
            failing,
            faults: 0,
        }
    }
}

impl Source for MemSource {
    ghost left = { λ s. Some s.left };

    ghost faults = { λ s. s.faults };

    /// As `Source::read`; it gives as many bytes as there are and fit. A call is numbered one above
    /// the last, up to 2^64 - 1.
    fn read(&mut self, into: &mut [u8]) -> Result<usize, Failed>
        ensures bound { ReadsAtMost result into.new }
        ensures bytes { ReadConsumes (Some self.old.left) (Some self.new.left) result into.new }
        ensures cause { HasCause self.old.faults self.new.faults result }
        ensures capped { self.new.faults ≤ 2 ^ 64 - 1 }

        ensures most { IfOk result (λ n. n ≡ min (length self.old.left) (length into.old)) }
        ensures number { self.new.reads ≡ min (self.old.reads + 1) (2 ^ 64 - 1) }
        ensures exact { IsErr result ↔ Contains self.old.failing self.new.reads }
        ensures failing { self.new.failing ≡ self.old.failing }
        ensures faults { MatchResult result (λ _. self.new.faults ≡ self.old.faults) (λ _. self.new.faults ≡ min (self.old.faults + 1) (2 ^ 64 - 1)) }
    {
        self.reads = self.reads.saturating_add(1);
        if self.failing.contains(&self.reads) {
            self.faults = self.faults.saturating_add(1);
            return Err(Failed);
        }
        let n = copy_front(&self.bytes[self.place..], into);
        self.place += n;
        Ok(n)
    }
}
