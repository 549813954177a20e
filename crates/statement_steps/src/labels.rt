//! The labels of a function's body, which are numbered in the order in which they stand.
ghost use Rattle.std.specs.Prelude.{◌≡◌, ◌++◌, ◌∷◌, [], ℕ, length, map, nat_eq, IfOk, OnOk, MatchOption};
ghost use Rattle.indexmap.specs.IndexMap.{get};
ghost use Rattle.c_types.specs.CType.{CType};
ghost use Rattle.c_meaning.specs.Units.{labels as labels_in};
ghost use Rattle.lowered_statements.specs.Functions.{place_in};
ghost use Rattle.statement_steps.specs.Numbering.{all_labels_of, first_among, labels_of};

use crate::numbers::number;
use c_meaning::CoreStmt;
use indexmap::IndexMap;
use lcc_base::Memory;
use std::alloc::Global;
use std::marker::Model;

/// The labels of a function's body. Contracts see the list of them.
#[derive(Drop)]
pub struct Labels {
    list: Vec<u32>,
    // Where each stands first.
    places: IndexMap<u32, usize>,
}

impl Model for Labels {
    ghost use Rattle.std.specs.Prelude.{ℕ, List, nat_eq};
    ghost use Rattle.indexmap.specs.IndexMap.{get};
    ghost use Rattle.statement_steps.specs.Numbering.{ArePlaces};

    ghost Value = { List ℕ };

    ghost view = { λ l. l.list.items };

    ghost invariant = { λ l. ArePlaces l.list.items (get nat_eq l.places) };
}

impl Labels {
    /// Those of a body.
    pub fn of(alloc: Global, body: &CoreStmt) -> Result<Self, Memory>
        ensures { IfOk result (λ l. (known : ℕ → CType) → l ≡ labels_of known body.now) }
    {
        let mut list = Vec::new(alloc);
        add_labels(body, &mut list)?;
        let places = places_of(alloc, list.as_slice())?;
        Ok(Labels { list, places })
    }

    /// How many there are. `Memory` comes where they are 2^32 or more.
    pub fn count(&self) -> Result<u32, Memory>
        ensures { IfOk result (λ n. n ≡ length self.now) }
    {
        number(self.list.len())
    }

    /// The number of a label: how many stand before it, or how many there are, if it isn't there. `Memory` comes where that is 2^32 or
    /// more.
    pub fn number(&self, label: u32) -> Result<u32, Memory>
        ensures { IfOk result (λ n. n ≡ place_in label self.now) }
    {
        match self.places.get(&label) {
            Some(place) => number(*place),
            None => number(self.list.len()),
        }
    }
}

// Where each of these labels stands first.
fn places_of(alloc: Global, labels: &[u32]) -> Result<IndexMap<u32, usize>, Memory>
    ensures { IfOk result (λ places. (n : ℕ) → get nat_eq places n ≡ first_among 0 labels.now n) }
{
    let mut places = IndexMap::new(alloc);
    for place in (0..labels.len()).rev() {
        places.insert(labels[place], place)?;
    }
    Ok(places)
}

// The labels of a statement are added.
#[cycle(labelling)]
fn add_labels(s: &CoreStmt, all: &mut Vec<u32>) -> Result<(), Memory>
    ensures { OnOk result ((known : ℕ → CType) → all.new.items ≡ all.old.items ++ labels_of known s.now) }
{
    match s {
        CoreStmt::Block { statements, .. } => add_all(statements.as_slice(), all),
        CoreStmt::If {
            then,
            otherwise,
            ..
        } => {
            add_labels(then, all)?;
            add_labels(otherwise, all)
        }
        CoreStmt::While { body, .. }
        | CoreStmt::Do { body, .. }
        | CoreStmt::For { body, .. }
        | CoreStmt::Switch { body, .. } => add_labels(body, all),
        CoreStmt::Label(label, inner) => {
            all.push(*label)?;
            add_labels(inner, all)
        }
        CoreStmt::Nothing
        | CoreStmt::Expression(_)
        | CoreStmt::Initialise { .. }
        | CoreStmt::Goto(_)
        | CoreStmt::Break
        | CoreStmt::Continue
        | CoreStmt::Return(_) => Ok(()),
    }
}

// Those of statements in order.
#[cycle(labelling)]
fn add_all(list: &[CoreStmt], all: &mut Vec<u32>) -> Result<(), Memory>
    ensures { OnOk result ((known : ℕ → CType) → all.new.items ≡ all.old.items ++ all_labels_of known list.now) }
{
    for s in list {
        add_labels(s, all)?;
    }
    Ok(())
}
