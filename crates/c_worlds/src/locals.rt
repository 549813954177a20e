//! The locals of the open calls, as a stack of pointers to their objects.
ghost use Rattle.std.specs.Prelude.{◌≡◌, ◌≤◌, ◌++◌, ◌∷◌, [], length, drop, slice_get, Some, None, IfSome, IfNone, IfOk, OnOk, OnErr};
ghost use Rattle.c_worlds.specs.OpenLocals.{OpenLocals, all_locals, locals_from};

use lcc_base::Memory;
use objects::Value;
use std::alloc::Global;
use std::marker::Model;

/// Pointers to the objects of the calls that are open, those of the running call last, which contracts see as the
/// two lists.
#[derive(Drop)]
pub struct Locals {
    values: Vec<Value>,
    base: usize,
}

impl Model for Locals {
    ghost use Rattle.std.specs.Prelude.{◌≤◌, length};
    ghost use Rattle.c_worlds.specs.OpenLocals.{OpenLocals, locals_from};

    ghost Value = { OpenLocals };

    ghost view = { λ l. locals_from l.base l.values.items };

    ghost invariant = { λ l. l.base ≤ length l.values.items };
}

impl Locals {
    /// No call is open, and the running one has none.
    pub fn new(alloc: Global) -> Self
        ensures { result ≡ record { below = []; here = [] } }
    {
        Locals {
            values: Vec::new(alloc),
            base: 0,
        }
    }

    /// How many there are of the calls that wait.
    pub fn base(&self) -> usize
        ensures { result ≡ length self.now.below }
    {
        self.base
    }

    /// The object of the running call at a place.
    #[inline(always)]
    pub fn get(&self, place: u32) -> Option<Value>
        ensures { result ≡ slice_get self.now.here place }
    {
        match self.values.get(self.base.saturating_add(place as usize)) {
            Some(value) => Some(*value),
            None => None,
        }
    }

    /// The same, where it is kept.
    #[inline(always)]
    pub fn find(&self, place: u32) -> Option<&Value>
        ensures some { IfSome result (λ v. slice_get self.now.here place ≡ Some v.now) }
        ensures none { IfNone result (slice_get self.now.here place ≡ None) }
    {
        self.values.get(self.base.saturating_add(place as usize))
    }

    /// The object at a place of the call that waits and whose locals begin behind so many.
    pub fn waiting(&self, base: usize, place: u32) -> Option<Value>
        ensures { result ≡ slice_get (drop base self.now.below) place }
    {
        let place = base.saturating_add(place as usize);
        if place < self.base {
            Some(self.values[place])
        } else {
            None
        }
    }

    /// A further one of the running call. After `Memory` they are as before.
    pub fn push(&mut self, value: Value) -> Result<(), Memory>
        ensures ok { OnOk result (self.new ≡ record { below = self.old.below; here = self.old.here ++ value ∷ [] }) }
        ensures err { OnErr result (self.new ≡ self.old) }
    {
        self.values.push(value)?;
        Ok(())
    }

    /// The running call waits for another, which has none yet.
    pub fn open(&mut self)
        ensures { self.new ≡ record { below = all_locals self.old; here = [] } }
    {
        self.base = self.values.len();
    }

    /// The running call is over, and the one whose locals begin behind so many goes on.
    pub fn close(&mut self, base: usize)
        ensures { self.new ≡ locals_from base self.old.below }
    {
        self.values.truncate(self.base);
        self.base = base.min(self.values.len());
    }
}
