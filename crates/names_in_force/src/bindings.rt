//! The stack of bindings, with names numbered and typedef names looked up at once.
ghost use Rattle.std.specs.Prelude.{◌≡◌, ◌<◌, ◌≤◌, ◌-◌, ◌++◌, ◌∷◌, [], false, length, take, drop, get_or, reverse, Some, slice_get, IfOk, OnOk, OnErr};
ghost use Rattle.c_ast.specs.InForce.{look_in};

use crate::bound::Bound;
use indexmap::IndexMap;
use lcc_base::Memory;
use std::alloc::Global;
use std::marker::Model;

/// The bindings in force, the oldest first, and those that were kept. Each name has a number, which
/// it gets with its first binding. Of a name it is known at once whether it is a typedef name.
#[derive(Drop)]
pub(crate) struct Bindings {
    alloc: Global,
    /// The names by their numbers, each with whether it is a typedef name.
    known: IndexMap<Vec<u8>, bool>,
    bound: Vec<Bound>,
    kept: Vec<Bound>,
}

impl Model for Bindings {
    ghost use Rattle.names_in_force.specs.Stacked.{Stacked};

    ghost Value = { Stacked };

    ghost use Rattle.names_in_force.specs.Numbered.{stacked, AreNumbered};

    ghost view = { λ b. stacked b.known.entries b.bound.items b.kept.items };

    ghost invariant = { λ b. AreNumbered b.known.entries b.bound.items b.kept.items };
}

impl Bindings {
    /// None, without an allocation.
    pub(crate) fn new(alloc: Global) -> Self
        ensures bound { result.bound ≡ [] }
        ensures kept { result.kept ≡ [] }
    {
        Bindings {
            alloc,
            known: IndexMap::new(alloc),
            bound: Vec::new(alloc),
            kept: Vec::new(alloc),
        }
    }

    /// How many are in force.
    pub(crate) fn len(&self) -> usize
        ensures { result ≡ length self.now.bound }
    {
        self.bound.len()
    }

    /// Whether the name's newest binding makes it a typedef name.
    pub(crate) fn is_typedef(&self, name: &[u8]) -> bool
        ensures { result ≡ look_in (reverse self.now.bound) name.now false }
    {
        match self.known.get_index_of(name) {
            Some(number) => self.known[number],
            None => false,
        }
    }

    /// The number of a name, which it gets where it has none.
    fn number(&mut self, name: &[u8]) -> Result<usize, Memory>
        ensures number { IfOk result (λ n. slice_get self.new.names n ≡ Some name.now) }
        ensures bound { self.new.bound ≡ self.old.bound }
        ensures kept { self.new.kept ≡ self.old.kept }
    {
        if let Some(number) = self.known.get_index_of(name) {
            return Ok(number);
        }
        let mut copy = Vec::new(self.alloc);
        copy.extend_from_slice(name)?;
        let number = self.known.len();
        self.known.insert(copy, false)?;
        Ok(number)
    }

    /// Binds the name of a number.
    fn bind(&mut self, number: usize, typedef: bool) -> Result<(), Memory>
        requires { number < length self.old.names }
        ensures ok { OnOk result (self.new.bound ≡ self.old.bound ++ record { name = get_or self.old.names number []; typedef = typedef } ∷ []) }
        ensures err { OnErr result (self.new.bound ≡ self.old.bound) }
        ensures kept { self.new.kept ≡ self.old.kept }
    {
        let before = self.known[number];
        self.bound.push(Bound {
            number,
            typedef,
            before,
        })?;
        self.known[number] = typedef;
        Ok(())
    }

    /// Binds the name, as a typedef name or another. After an error the same are in force.
    pub(crate) fn put(&mut self, name: &[u8], typedef: bool) -> Result<(), Memory>
        ensures ok { OnOk result (self.new.bound ≡ self.old.bound ++ record { name = name.now; typedef = typedef } ∷ []) }
        ensures err { OnErr result (self.new.bound ≡ self.old.bound) }
        ensures kept { self.new.kept ≡ self.old.kept }
    {
        let number = self.number(name)?;
        self.bind(number, typedef)
    }

    /// Takes the newest out of force, if there is one.
    fn unbind(&mut self)
        ensures bound { self.new.bound ≡ take (length self.old.bound - 1) self.old.bound }
        ensures kept { self.new.kept ≡ self.old.kept }
    {
        if let Some(last) = self.bound.pop() {
            self.known[last.number] = last.before;
        }
    }

    /// Takes those from a place on out of force, the newest first.
    pub(crate) fn unbind_to(&mut self, start: usize)
        ensures bound { self.new.bound ≡ take start self.old.bound }
        ensures kept { self.new.kept ≡ self.old.kept }
    {
        while self.len() > start {
            self.unbind();
        }
    }

    /// Keeps those from a place on, which stay in force. After an error the same are kept.
    pub(crate) fn keep_from(&mut self, start: usize) -> Result<(), Memory>
        requires { start ≤ length self.old.bound }
        ensures bound { self.new.bound ≡ self.old.bound }
        ensures ok { OnOk result (self.new.kept ≡ drop start self.old.bound) }
        ensures err { OnErr result (self.new.kept ≡ self.old.kept) }
    {
        let mut kept = Vec::new(self.alloc);
        kept.extend_from_slice(&self.bound[start..])?;
        self.kept = kept;
        Ok(())
    }

    /// Binds again what is kept at a place.
    fn rebind(&mut self, place: usize) -> Result<(), Memory>
        requires { place < length self.old.kept }
        ensures ok { OnOk result (self.new.bound ≡ self.old.bound ++ take 1 (drop place self.old.kept)) }
        ensures err { OnErr result (self.new.bound ≡ self.old.bound) }
        ensures kept { self.new.kept ≡ self.old.kept }
    {
        let again = self.kept[place];
        self.bind(again.number, again.typedef)
    }

    /// Binds again what is kept, and keeps none. After an error the same are in force and kept.
    pub(crate) fn rebind_kept(&mut self) -> Result<(), Memory>
        ensures bound { OnOk result (self.new.bound ≡ self.old.bound ++ self.old.kept) }
        ensures kept { OnOk result (self.new.kept ≡ []) }
        ensures bound_err { OnErr result (self.new.bound ≡ self.old.bound) }
        ensures kept_err { OnErr result (self.new.kept ≡ self.old.kept) }
    {
        let start = self.len();
        for place in 0..self.kept.len() {
            if self.rebind(place).is_err() {
                self.unbind_to(start);
                return Err(Memory);
            }
        }
        self.forget();
        Ok(())
    }

    /// Keeps none.
    pub(crate) fn forget(&mut self)
        ensures bound { self.new.bound ≡ self.old.bound }
        ensures kept { self.new.kept ≡ [] }
    {
        self.kept.clear();
    }
}
