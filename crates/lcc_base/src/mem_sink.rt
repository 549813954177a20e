//! A sink in memory, whose writes fail where they are told to.
ghost use Rattle.std.specs.Prelude.{◌≡◌, ◌+◌, ◌-◌, ◌^◌, ◌<◌, ◌≤◌, [], length, min, Some, IfOk, IsErr, MatchResult, Contains};
ghost use Rattle.std.specs.Io.{WritesAtMost};
ghost use Rattle.std.specs.Io.KnownBytes.{WriteAppends};
ghost use Rattle.lcc_base.specs.Faults.{HasCause};

use crate::{Failed, Sink};
use std::alloc::Global;
use std::marker::Model;

/// A sink in memory, whose n-th write fails where n is in a list. A growth that is refused fails
/// too.
#[derive(Drop)]
pub struct MemSink {
    bytes: Vec<u8>,
    writes: u64,
    failing: Vec<u64>,
    faults: u64,
}

impl Model for MemSink {
    ghost use Rattle.std.specs.Prelude.{◌-◌, ◌^◌, ◌≤◌};
    ghost use Rattle.lcc_base.specs.MemSinkState.{MemSinkState};

    ghost Value = { MemSinkState };

    ghost view = { λ s. record { taken = s.bytes.items; writes = s.writes; failing = s.failing.items; faults = s.faults } };

    ghost invariant = { λ s. s.faults ≤ 2 ^ 64 - 1 };
}

impl MemSink {
    /// A sink that has taken nothing. The write with number n, from 1, fails where n is in
    /// `failing`. It takes no memory yet.
    pub fn new(alloc: Global, failing: Vec<u64>) -> Self
        ensures { result ≡ record { taken = []; writes = 0; failing = failing.items; faults = 0 } }
    {
        MemSink {
            bytes: Vec::new(alloc),
            writes: 0,
            failing,
            faults: 0,
        }
    }

    /// The bytes that were taken, in order.
    pub fn taken(&self) -> &[u8]
        ensures { result.now ≡ self.now.taken }
    {
        &self.bytes
    }
}

impl Sink for MemSink {
    ghost taken = { λ s. Some s.taken };

    ghost faults = { λ s. s.faults };

    /// As `Sink::write`; it takes the whole piece. A call is numbered one above the last, up to
    /// 2^64 - 1. A write whose number is not in the list fails only for want of memory.
    fn write(&mut self, piece: &[u8]) -> Result<usize, Failed>
        ensures bound { WritesAtMost result piece.now }
        ensures some { 0 < length piece.now → IfOk result (λ n. 0 < n) }
        ensures bytes { WriteAppends (Some self.old.taken) (Some self.new.taken) result piece.now }
        ensures cause { HasCause self.old.faults self.new.faults result }
        ensures capped { self.new.faults ≤ 2 ^ 64 - 1 }

        ensures whole { IfOk result (λ n. n ≡ length piece.now) }
        ensures number { self.new.writes ≡ min (self.old.writes + 1) (2 ^ 64 - 1) }
        ensures fails { Contains self.old.failing self.new.writes → IsErr result }
        ensures failing { self.new.failing ≡ self.old.failing }
        ensures faults { MatchResult result (λ _. self.new.faults ≡ self.old.faults) (λ _. self.new.faults ≡ min (self.old.faults + 1) (2 ^ 64 - 1)) }
    {
        self.writes = self.writes.saturating_add(1);
        if self.failing.contains(&self.writes) || self.bytes.extend_from_slice(piece).is_err() {
            self.faults = self.faults.saturating_add(1);
            return Err(Failed);
        }
        Ok(piece.len())
    }
}
