//! Owned sequences of values, over the vectors of the standard library.
ghost use Rattle.std.specs.Prelude.{◌≡◌, ◌<◌, ◌++◌, ◌∷◌, ◌↔◌, [], length, IsTrue, Some, IfOk, OnOk, OnErr, slice_get};

use crate::Memory;
use std::alloc::Global;
use std::marker::Model;

/// Values in order, which contracts see as a list.
#[derive(Debug, Drop)]
pub struct Items<T> {
    items: Vec<T>,
}

impl<T> Model for Items<T> {
    ghost use Rattle.std.specs.Prelude.{List};
    ghost use Rattle.std.specs.Coded.{coded_list};

    ghost Value = { List T };

    ghost coded = { coded_list T.code };

    ghost view = { λ i. i.items.items };
}

impl<T> Items<T> {
    /// No values, without an allocation.
    pub fn new(alloc: Global) -> Self
        ensures { result ≡ [] }
    {
        Items {
            items: Vec::new(alloc),
        }
    }

    /// No values, with room for so many. `Memory` comes where that is refused.
    pub fn with_capacity(alloc: Global, capacity: usize) -> Result<Self, Memory>
        ensures { IfOk result (λ i. i ≡ []) }
    {
        let items = Vec::with_capacity(alloc, capacity)?;
        Ok(Items { items })
    }

    /// The values of a vector, without an allocation.
    pub fn from_vec(items: Vec<T>) -> Self
        ensures { result ≡ items.items }
    {
        Items { items }
    }

    /// The values as a vector, without an allocation.
    pub fn into_vec(self) -> Vec<T>
        ensures { result.items ≡ self }
    {
        let Items { items } = self;
        items
    }

    /// How many values there are.
    pub fn len(&self) -> usize
        ensures { result ≡ length self.now }
    {
        self.items.len()
    }

    /// Whether there are none.
    pub fn is_empty(&self) -> bool
        ensures { IsTrue result ↔ (self.now ≡ []) }
    {
        self.items.is_empty()
    }

    /// All of them.
    pub fn as_slice(&self) -> &[T]
        ensures { result.now ≡ self.now }
    {
        self.items.as_slice()
    }

    /// The value at a place, from 0.
    pub fn at(&self, place: usize) -> &T
        requires { place < length self.now }
        ensures { slice_get self.now place ≡ Some result.now }
    {
        &self.items[place]
    }
}

impl<T: Drop> Items<T> {
    /// Adds one at the end. After an error they are as before.
    pub fn push(&mut self, value: T) -> Result<(), Memory>
        ensures ok { OnOk result (self.new ≡ self.old ++ value ∷ []) }
        ensures err { OnErr result (self.new ≡ self.old) }
    {
        self.items.push(value)?;
        Ok(())
    }
}
