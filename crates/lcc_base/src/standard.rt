//! Sources and sinks over the readers and writers of std, with their failures counted.
ghost use Rattle.std.specs.Prelude.{◌≡◌, ℕ, ◌+◌, ◌-◌, ◌^◌, ◌<◌, ◌≤◌, length, min, None, IfOk, MatchResult};
ghost use Rattle.std.specs.Io.{ReadsAtMost, WritesAtMost};
ghost use Rattle.std.specs.Io.KnownBytes.{ReadConsumes, WriteAppends};
ghost use Rattle.lcc_base.specs.Faults.{HasCause};

use crate::{Failed, Sink, Source};
use std::io::{Read, Write};
use std::marker::Model;

/// A source over a reader of std, which contracts see as its count of faults: how many reads of
/// the reader failed, up to 2^64 - 1. It tells no content.
#[derive(Drop)]
pub struct StdSource<R: Read + Drop> {
    reader: R,
    faults: u64,
}

impl<R: Read + Drop> Model for StdSource<R> {
    ghost Value = { ℕ };

    ghost view = { λ s. s.faults };

    ghost invariant = { λ s. s.faults ≤ 2 ^ 64 - 1 };
}

impl<R: Read + Drop> StdSource<R> {
    /// A source over this reader, without a fault yet.
    pub fn new(reader: R) -> Self
        ensures { result ≡ 0 }
    {
        StdSource { reader, faults: 0 }
    }
}

impl<R: Read + Drop> Source for StdSource<R> {
    ghost left = { λ _. None };

    ghost faults = { λ s. s };

    /// One read of the reader. Each of its errors is a fault.
    fn read(&mut self, into: &mut [u8]) -> Result<usize, Failed>
        ensures bound { ReadsAtMost result into.new }
        ensures bytes { ReadConsumes None None result into.new }
        ensures cause { HasCause self.old self.new result }
        ensures capped { self.new ≤ 2 ^ 64 - 1 }

        ensures counted { MatchResult result (λ _. self.new ≡ self.old) (λ _. self.new ≡ min (self.old + 1) (2 ^ 64 - 1)) }
    {
        match self.reader.read(into) {
            Ok(n) => Ok(n),
            Err(_) => {
                self.faults = self.faults.saturating_add(1);
                Err(Failed)
            }
        }
    }
}

/// A sink over a writer of std, which contracts see as its count of faults: how many writes to the
/// writer failed or took nothing of a piece that had bytes, up to 2^64 - 1. It tells no content.
#[derive(Drop)]
pub struct StdSink<W: Write + Drop> {
    writer: W,
    faults: u64,
}

impl<W: Write + Drop> Model for StdSink<W> {
    ghost Value = { ℕ };

    ghost view = { λ s. s.faults };

    ghost invariant = { λ s. s.faults ≤ 2 ^ 64 - 1 };
}

impl<W: Write + Drop> StdSink<W> {
    /// A sink over this writer, without a fault yet.
    pub fn new(writer: W) -> Self
        ensures { result ≡ 0 }
    {
        StdSink { writer, faults: 0 }
    }
}

impl<W: Write + Drop> Sink for StdSink<W> {
    ghost taken = { λ _. None };

    ghost faults = { λ s. s };

    /// One write to the writer. Each of its errors is a fault, and so is each write that takes
    /// nothing of a piece that has bytes.
    fn write(&mut self, piece: &[u8]) -> Result<usize, Failed>
        ensures bound { WritesAtMost result piece.now }
        ensures some { 0 < length piece.now → IfOk result (λ n. 0 < n) }
        ensures bytes { WriteAppends None None result piece.now }
        ensures cause { HasCause self.old self.new result }
        ensures capped { self.new ≤ 2 ^ 64 - 1 }

        ensures counted { MatchResult result (λ _. self.new ≡ self.old) (λ _. self.new ≡ min (self.old + 1) (2 ^ 64 - 1)) }
    {
        match self.writer.write(piece) {
            Ok(n) if n > 0 || piece.is_empty() => Ok(n),
            _ => {
                self.faults = self.faults.saturating_add(1);
                Err(Failed)
            }
        }
    }
}
