//! The places of a description's rules, by what stands at the root of their patterns.
ghost use Rattle.std.specs.Prelude.{◌≡◌, ◌<◌, ℕ, [], IfOk, OnOk, length};
ghost use Rattle.lburg_model.specs.Pattern.{pattern_of};
ghost use Rattle.lburg_tables.specs.Root.{root_of};
ghost use Rattle.lburg_tables.specs.IsIndex.{IsIndex, places_in};
ghost use Rattle.lburg_tables.specs.Added.{HasList, added, operators_with, chains_with};

use lburg_model::{Description, Pattern, Rule};
use lcc_base::{Items, Memory};
use std::alloc::Global;

/// The places of rules, in order, by what stands at the root of their patterns.
#[derive(Debug, Drop)]
pub(crate) struct Index {
    /// By operator.
    pub(crate) operators: Vec<Items<u16>>,
    /// The chain rules, by nonterminal.
    pub(crate) chains: Vec<Items<u16>>,
}

/// A list of places, which is empty where there is none.
pub(crate) fn places_at(lists: &[Items<u16>], n: usize) -> &[u16]
    ensures { result.now ≡ places_in lists.now n }
{
    match lists.get(n) {
        Some(places) => places.as_slice(),
        None => &[],
    }
}

/// So many empty lists.
fn empty_lists(alloc: Global, count: usize) -> Result<Vec<Items<u16>>, Memory>
    ensures many { IfOk result (λ lists. length lists.items ≡ count) }
    ensures empty { IfOk result (λ lists. (n : ℕ) → places_in lists.items n ≡ []) }
{
    let mut lists = Vec::with_capacity(alloc, count)?;
    for _ in 0..count {
        lists.push(Items::new(alloc))?;
    }
    Ok(lists)
}

/// Adds a place to the n-th list.
fn push_place(lists: &mut Vec<Items<u16>>, n: usize, place: u16) -> Result<(), Memory>
    requires { n < length lists.old.items }
    ensures { OnOk result (lists.new.items ≡ added lists.old.items n place) }
{
    lists[n].push(place)
}

impl Index {
    /// Adds a rule's place to the list of its root.
    fn add(&mut self, rule: &Rule, place: u16) -> Result<(), Memory>
        requires { HasList (length self.old.operators.items) (length self.old.chains.items) (root_of (pattern_of rule.now.pattern)) }
        ensures operators { OnOk result (self.new.operators.items ≡ operators_with (root_of (pattern_of rule.now.pattern)) place self.old.operators.items) }
        ensures chains { OnOk result (self.new.chains.items ≡ chains_with (root_of (pattern_of rule.now.pattern)) place self.old.chains.items) }
    {
        match &rule.pattern {
            Pattern::Nonterminal(n) => push_place(&mut self.chains, *n as usize, place),
            Pattern::Leaf(op) => push_place(&mut self.operators, *op as usize, place),
            Pattern::Unary(op, _) => push_place(&mut self.operators, *op as usize, place),
            Pattern::Binary(op, _, _) => push_place(&mut self.operators, *op as usize, place),
        }
    }
}

/// The places of a description's rules. `Memory` comes where an allocation is refused.
pub(crate) fn index_of(alloc: Global, d: &Description) -> Result<Index, Memory>
    ensures { IfOk result (λ index. IsIndex d.now.rules index) }
{
    let mut index = Index {
        operators: empty_lists(alloc, d.terminals().len() + 1)?,
        chains: empty_lists(alloc, d.nonterminals().len())?,
    };
    let rules = d.rules();
    for (place, rule) in rules.iter().enumerate() {
        index.add(rule, place as u16)?;
    }
    Ok(index)
}
