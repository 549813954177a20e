//! The names that one scope declares, in order, each with its symbol.
ghost use Rattle.std.specs.Prelude.{◌≡◌, ◌++◌, ◌∷◌, ◌<◌, [], None, Some, OnOk, OnErr, length, slice_get};
ghost use Rattle.c_symbols.specs.Scoping.{symbol_named};

use crate::scopes::SymbolId;
use indexmap::IndexMap;
use lcc_base::Memory;
use std::alloc::Global;
use std::marker::Model;

/// The names of one scope, which contracts see as the list of the names, in the order of their
/// declarations, each with its symbol.
#[derive(Drop)]
pub struct Scope {
    names: IndexMap<Vec<u8>, SymbolId>,
}

impl Model for Scope {
    ghost use Rattle.std.specs.Prelude.{List, ℕ};
    ghost use Rattle.c_symbols.specs.Entries.{names_in};

    ghost Value = { List (List ℕ × ℕ) };

    ghost view = { λ s. names_in s.names.entries };
}

impl Scope {
    /// No names, without an allocation.
    pub fn new(alloc: Global) -> Self
        ensures { result ≡ [] }
    {
        Scope {
            names: IndexMap::new(alloc),
        }
    }

    /// The symbol of the name, if the scope has it.
    #[tactic(auto, using(crate::proofs::Naming::named_entries))]
    pub fn find(&self, name: &[u8]) -> Option<SymbolId>
        ensures { result ≡ symbol_named self.now name.now }
    {
        self.names.get(name).copied()
    }

    /// How many names there are.
    pub fn len(&self) -> usize
        ensures { result ≡ length self.now }
    {
        self.names.len()
    }

    /// The name that was declared with this many before it, and its symbol.
    pub fn entry(&self, place: usize) -> (&[u8], SymbolId)
        requires { place < length self.now }
        ensures { slice_get self.now place ≡ Some (result.0.now, result.1) }
    {
        match self.names.get_index(place) {
            Some((name, id)) => (name.as_slice(), *id),
            None => unreachable!(),
        }
    }

    /// Gives the name this symbol. After an error the scope is as before.
    pub fn add(&mut self, alloc: Global, name: &[u8], id: SymbolId) -> Result<(), Memory>
        requires { symbol_named self.old name.now ≡ None }
        ensures ok { OnOk result (self.new ≡ self.old ++ (name.now, id) ∷ []) }
        ensures err { OnErr result (self.new ≡ self.old) }
    {
        let mut copy = Vec::new(alloc);
        copy.extend_from_slice(name)?;
        self.names.insert(copy, id)?;
        Ok(())
    }
}
