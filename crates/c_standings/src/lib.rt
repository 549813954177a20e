//! What the symbols of a unit's names stand for, once the unit is whole (C89 3.7): functions, objects and built-in
//! functions by their places.
#![tactic(auto)]

ghost use Rattle.std.specs.Prelude.{◌≡◌, ◌++◌, ◌∷◌, [], None, OnOk};
ghost use Rattle.c_standings.specs.StandingLists.{of_symbol};

use c_meaning::BuiltIn;
use c_symbols::SymbolId;
use indexmap::IndexMap;
use lcc_base::Memory;
use std::alloc::Global;
use std::marker::Model;

/// What a symbol stands for.
#[derive(Clone, Copy, Debug)]
pub enum Standing {
    /// The function with this place among those of the unit.
    Function(u32),
    /// The object with this place among those of the unit.
    Object(u32),
    BuiltIn(BuiltIn),
}

/// What symbols stand for, which contracts see as the list of the symbols with what each stands for. No two
/// have one symbol.
#[derive(Drop)]
pub struct Standings {
    standings: IndexMap<SymbolId, Standing>,
}

impl Model for Standings {
    ghost use Rattle.std.specs.Prelude.{List, ℕ};
    ghost use Rattle.c_standings.specs.declared.Standing.{Standing};

    ghost Value = { List (ℕ × Standing) };

    ghost view = { λ s. s.standings.entries };
}

impl Standings {
    /// Nothing, without an allocation.
    pub fn new(alloc: Global) -> Self
        ensures { result ≡ [] }
    {
        Standings {
            standings: IndexMap::new(alloc),
        }
    }

    /// What a symbol stands for. None where it stands for nothing in the unit.
    pub fn of(&self, id: SymbolId) -> Option<Standing>
        ensures { result ≡ of_symbol self.now id }
    {
        self.standings.get(&id).copied()
    }

    /// Notes what a symbol stands for that has nothing yet.
    pub fn add(&mut self, id: SymbolId, standing: Standing) -> Result<(), Memory>
        requires { of_symbol self.old id ≡ None }
        ensures { OnOk result (self.new ≡ self.old ++ (id, standing) ∷ []) }
    {
        self.standings.insert(id, standing)?;
        Ok(())
    }
}
