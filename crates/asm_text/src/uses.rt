//! The table of the names that an assembly uses, each with the line of its first use.
ghost use Rattle.std.specs.Prelude.{◌≡◌, ◌<◌, [], length, IfOk, OnErr, Some, slice_get};
ghost use Rattle.asm_text.specs.Made.{with_use};
ghost use Rattle.asm_text.specs.Uses.{use_of, used_names};

use crate::name_table::NameTable;
use indexmap::IndexMap;
use lcc_base::Memory;
use std::alloc::Global;
use std::marker::Model;

/// The names that are used, by their numbers, from 0 in the order of their first uses, with the lines of these. Contracts
/// see the list of them.
#[derive(Drop)]
pub(crate) struct Uses<'a> {
    lines: IndexMap<&'a [u8], u32>,
}

impl<'a> Model for Uses<'a> {
    ghost use Rattle.std.specs.Prelude.{List};
    ghost use Rattle.asm_text.specs.Made.{Use};
    ghost use Rattle.asm_text.specs.Entries.{uses_in};

    ghost Value = { List Use };

    ghost view = { λ t. uses_in t.lines.entries };
}

/// The number of a name at this place.
fn number_at(place: usize) -> Result<u32, Memory>
    ensures { IfOk result (λ n. n ≡ place) }
{
    u32::try_from(place).map_err(|_| Memory)
}

impl<'a> Uses<'a> {
    /// No names, without an allocation.
    pub(crate) fn new(alloc: Global) -> Self
        ensures { result ≡ [] }
    {
        Uses {
            lines: IndexMap::new(alloc),
        }
    }

    /// The number of the name, which is used on this line. `Memory` comes where it has no 32 bits, too. After an error the
    /// uses are as before.
    pub(crate) fn add(&mut self, name: &'a [u8], line: u32) -> Result<u32, Memory>
        ensures uses { IfOk result (λ n. self.new ≡ with_use line self.old name.now) }
        ensures number { IfOk result (λ n. slice_get (used_names self.new) n ≡ Some name.now) }
        ensures unchanged { OnErr result (self.new ≡ self.old) }
    {
        if let Some(place) = self.lines.get_index_of(name) {
            return number_at(place);
        }
        let number = number_at(self.lines.len())?;
        self.lines.insert(name, line)?;
        Ok(number)
    }

    /// How many names there are.
    pub(crate) fn len(&self) -> usize
        ensures { result ≡ length self.now }
    {
        self.lines.len()
    }

    /// The name of this number, and the line of its first use.
    pub(crate) fn at(&self, number: usize) -> (&'a [u8], u32)
        requires { number < length self.now }
        ensures { slice_get self.now number ≡ Some (use_of result.0.now result.1) }
    {
        match self.lines.get_index(number) {
            Some((name, line)) => (*name, *line),
            None => unreachable!(),
        }
    }

    /// A table of the names. `Memory` comes where an allocation is refused.
    pub(crate) fn into_table(self, alloc: Global) -> Result<NameTable, Memory>
        ensures { IfOk result (λ t. t ≡ used_names self.entry) }
    {
        let mut names = NameTable::new(alloc);
        for name in self.lines.keys() {
            names.push(name)?;
        }
        Ok(names)
    }
}
