//! The table of the labels that an assembly has defined, with their places.
ghost use Rattle.std.specs.Prelude.{◌≡◌, ◌++◌, ◌∷◌, [], true, false, IfOk, IfSome, OnErr};
ghost use Rattle.asm_text.specs.Program.{place_of};
ghost use Rattle.asm_text.specs.Addresses.{IsAddressable, address_by};
ghost use Rattle.asm_text.specs.Made.{label_at};
ghost use Rattle.asm_text.specs.Makes.{label_names, IsNew};
ghost use Rattle.asm_text.specs.Paired.{paired};

use crate::addresses::{address_at, built_in_at};
use crate::name_table::NameTable;
use crate::place::Place;
use indexmap::IndexMap;
use lcc_base::Memory;
use std::alloc::Global;
use std::marker::Model;

/// The labels so far, to be found by their names. Contracts see the list of them.
#[derive(Drop)]
pub(crate) struct Labels<'a> {
    places: IndexMap<&'a [u8], Place>,
}

impl<'a> Model for Labels<'a> {
    ghost use Rattle.std.specs.Prelude.{List, All};
    ghost use Rattle.asm_text.specs.Program.{MLabel};
    ghost use Rattle.asm_text.specs.Addresses.{IsAddressable};
    ghost use Rattle.asm_text.specs.Entries.{labels_in};

    ghost Value = { List MLabel };

    ghost view = { λ t. labels_in t.places.entries };

    ghost invariant = { λ t. All (λ e. IsAddressable e.1) t.places.entries };
}

impl<'a> Labels<'a> {
    /// No labels, without an allocation.
    pub(crate) fn new(alloc: Global) -> Self
        ensures { result ≡ [] }
    {
        Labels {
            places: IndexMap::new(alloc),
        }
    }

    /// Adds a label, unless one has its name: whether it was added. After an error the labels are as before.
    pub(crate) fn add(&mut self, name: &'a [u8], at: Place) -> Result<bool, Memory>
        requires { IsAddressable at }
        ensures added { IfOk result (λ b. b ≡ true → IsNew (label_names self.old) name.now × (self.new ≡ self.old ++ label_at at name.now ∷ [])) }
        ensures known { IfOk result (λ b. b ≡ false → IsNew (label_names self.old) name.now → ⊥) }
        ensures unchanged { OnErr result (self.new ≡ self.old) }
    {
        if self.places.contains_key(name) {
            return Ok(false);
        }
        self.places.insert(name, at)?;
        Ok(true)
    }

    /// The place of the label with this name, if there is one.
    pub(crate) fn place(&self, name: &'a [u8]) -> Option<Place>
        ensures place { result ≡ place_of self.now name.now }
        ensures within { IfSome result IsAddressable }
    {
        self.places.get(name).copied()
    }

    /// The address of a name: that of its label, or else of the built-in function of this name. None where it is neither's.
    pub(crate) fn address(&self, name: &'a [u8]) -> Option<u32>
        ensures { result ≡ address_by name.now (place_of self.now name.now) }
    {
        match self.place(name) {
            Some(place) => Some(address_at(place)),
            None => built_in_at(name),
        }
    }

    /// A table of their names, and the place of each. `Memory` comes where an allocation is refused.
    pub(crate) fn into_table(self, alloc: Global) -> Result<(NameTable, Vec<Place>), Memory>
        ensures { IfOk result (λ t. paired label_at t.1.items t.0 ≡ self.entry) }
    {
        let mut names = NameTable::new(alloc);
        let mut places = Vec::with_capacity(alloc, self.places.len())?;
        for (name, place) in &self.places {
            names.push(name)?;
            places.push(*place)?;
        }
        Ok((names, places))
    }
}
