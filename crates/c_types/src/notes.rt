//! Notes of what was worked out of pairs of types: which are compatible, and their composites.
ghost use Rattle.std.specs.Prelude.{◌≡◌, ◌⊎◌, [], All, Contains, IfSome, true};

use crate::type_form::TypeId;
use indexmap::{IndexMap, IndexSet};
use std::alloc::Global;
use std::marker::Model;

/// Pairs of types, by their places, that were found compatible.
#[derive(Drop)]
pub(crate) struct CompatiblePairs {
    pairs: IndexSet<(TypeId, TypeId)>,
}

impl Model for CompatiblePairs {
    ghost use Rattle.std.specs.Prelude.{ℕ, List};

    ghost Value = { List (ℕ × ℕ) };

    ghost view = { λ n. n.pairs.keys };
}

impl CompatiblePairs {
    /// No pairs, without an allocation.
    pub(crate) fn new(alloc: Global) -> Self
        ensures { result ≡ [] }
    {
        CompatiblePairs {
            pairs: IndexSet::new(alloc),
        }
    }

    /// Whether the pair is noted.
    pub(crate) fn has(&self, a: TypeId, b: TypeId) -> bool
        ensures { result ≡ true → Contains self.now (a, b) }
    {
        self.pairs.contains(&(a, b))
    }

    /// Notes the pair, unless an allocation is refused.
    pub(crate) fn note(&mut self, a: TypeId, b: TypeId)
        ensures { All (λ p. Contains self.old p ⊎ (p ≡ (a, b))) self.new }
    {
        let _ = self.pairs.insert((a, b));
    }
}

/// Composites that were made, each by the places of the two types that it is of.
#[derive(Drop)]
pub(crate) struct Composites {
    made: IndexMap<(TypeId, TypeId), TypeId>,
}

impl Model for Composites {
    ghost use Rattle.std.specs.Prelude.{ℕ, List};

    ghost Value = { List ((ℕ × ℕ) × ℕ) };

    ghost view = { λ n. n.made.entries };
}

impl Composites {
    /// No composites, without an allocation.
    pub(crate) fn new(alloc: Global) -> Self
        ensures { result ≡ [] }
    {
        Composites {
            made: IndexMap::new(alloc),
        }
    }

    /// The composite of the pair, if it is noted.
    pub(crate) fn get(&self, a: TypeId, b: TypeId) -> Option<TypeId>
        ensures { IfSome result (λ id. Contains self.now ((a, b), id)) }
    {
        self.made.get(&(a, b)).copied()
    }

    /// Notes the composite of the pair, unless an allocation is refused.
    pub(crate) fn note(&mut self, a: TypeId, b: TypeId, id: TypeId)
        ensures { All (λ e. Contains self.old e ⊎ (e ≡ ((a, b), id))) self.new }
    {
        let _ = self.made.insert((a, b), id);
    }
}
