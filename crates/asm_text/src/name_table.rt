//! A table of names that are numbered from 0 and kept in one buffer.
ghost use Rattle.std.specs.Prelude.{◌≡◌, ◌<◌, ◌++◌, ◌∷◌, [], length, OnOk, OnErr, Some, slice_get};
ghost use Rattle.asm_text.specs.NameTable.{names_behind, AreEnds, StartsAt};

use lcc_base::Memory;
use std::alloc::Global;
use std::marker::Model;

/// Names by their numbers, from 0, in one buffer. Contracts see the list of them.
#[derive(Debug, Drop)]
pub(crate) struct NameTable {
    bytes: Vec<u8>,
    /// Where each name ends.
    ends: Vec<usize>,
}

impl Model for NameTable {
    ghost use Rattle.std.specs.Prelude.{List, ℕ};
    ghost use Rattle.asm_text.specs.NameTable.{names_behind, AreEnds};

    ghost Value = { List (List ℕ) };

    ghost view = { λ t. names_behind 0 t.ends.items t.bytes.items };

    ghost invariant = { λ t. AreEnds 0 t.ends.items t.bytes.items };
}

/// Where the name of this number starts: where the one before ends.
fn start_of(ends: &[usize], number: usize) -> usize
    requires { number < length ends.now }
    ensures { StartsAt 0 ends.now number result }
{
    if number == 0 { 0 } else { ends[number - 1] }
}

/// The name of this number, among those of these ends.
fn name_in<'a>(ends: &[usize], bytes: &'a [u8], number: usize) -> &'a [u8]
    requires ends { AreEnds 0 ends.now bytes.now }
    requires number { number < length ends.now }
    ensures { slice_get (names_behind 0 ends.now bytes.now) number ≡ Some result.now }
{
    let start = start_of(ends, number);
    &bytes[start..ends[number]]
}

impl NameTable {
    /// No names, without an allocation.
    pub(crate) fn new(alloc: Global) -> Self
        ensures { result ≡ [] }
    {
        NameTable {
            bytes: Vec::new(alloc),
            ends: Vec::new(alloc),
        }
    }

    /// How many names there are.
    pub(crate) fn len(&self) -> usize
        ensures { result ≡ length self.now }
    {
        self.ends.len()
    }

    /// Adds a name at the end. After an error the table is as before.
    pub(crate) fn push(&mut self, name: &[u8]) -> Result<(), Memory>
        ensures ok { OnOk result (self.new ≡ self.old ++ name.now ∷ []) }
        ensures err { OnErr result (self.new ≡ self.old) }
    {
        let before = self.bytes.len();
        self.bytes.extend_from_slice(name)?;
        match self.ends.push(self.bytes.len()) {
            Ok(()) => Ok(()),
            Err(_) => {
                self.bytes.truncate(before);
                Err(Memory)
            }
        }
    }

    /// The name of this number.
    pub(crate) fn name(&self, number: usize) -> &[u8]
        requires { number < length self.now }
        ensures { slice_get self.now number ≡ Some result.now }
    {
        name_in(&self.ends, &self.bytes, number)
    }
}
