//! The buffer in which a run's printed bytes are gathered for its output.
ghost use Rattle.std.specs.Prelude.{◌≡◌, ◌++◌, ◌∷◌, List, ℕ, [], OnOk, OnErr};
ghost use Rattle.std.specs.Io.KnownBytes.{Appends};
ghost use Rattle.lcc_base.specs.Faults.{HasCause};
ghost use Rattle.lcc_base.specs.Taken.{TookPrefix};

use lcc_base::{Failed, Sink, write_all};
use std::marker::Model;

/// How many bytes are gathered at most.
const ROOM: usize = 4096;

/// Bytes that a run has printed and its output hasn't taken yet. Contracts see the list of them.
#[derive(Drop)]
pub(crate) struct Gathered {
    bytes: [u8; ROOM],
    count: usize,
}

impl Model for Gathered {
    ghost use Rattle.std.specs.Prelude.{◌≤◌, List, ℕ, take};

    ghost Value = { List ℕ };

    ghost view = { λ g. take g.count g.bytes };

    ghost invariant = { λ g. g.count ≤ 4096 };
}

impl Gathered {
    /// No bytes.
    pub(crate) fn new() -> Self
        ensures { result ≡ [] }
    {
        Gathered {
            bytes: [0; ROOM],
            count: 0,
        }
    }

    /// Adds a byte. Where there is no room, the output takes the others before.
    pub(crate) fn add<K: Sink>(&mut self, byte: u8, output: &mut K) -> Result<(), Failed>
        ensures added { OnOk result ((piece : List ℕ) × Appends (K.taken output.old) (K.taken output.new) piece × (piece ++ self.new ≡ self.old ++ byte ∷ [])) }
        ensures prefix { OnErr result (TookPrefix (K.taken output.old) (K.taken output.new) self.old) }
        ensures cause { HasCause (K.faults output.old) (K.faults output.new) result }
    {
        if self.count == ROOM {
            self.hand_over(output)?;
        }
        self.bytes[self.count] = byte;
        self.count += 1;
        Ok(())
    }

    /// The output takes all bytes.
    pub(crate) fn hand_over<K: Sink>(&mut self, output: &mut K) -> Result<(), Failed>
        ensures all { OnOk result (Appends (K.taken output.old) (K.taken output.new) self.old × (self.new ≡ [])) }
        ensures prefix { OnErr result (TookPrefix (K.taken output.old) (K.taken output.new) self.old) }
        ensures cause { HasCause (K.faults output.old) (K.faults output.new) result }
    {
        write_all(output, &self.bytes[..self.count])?;
        self.count = 0;
        Ok(())
    }
}
