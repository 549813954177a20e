//! The labels of a forest: where they stand, and whether jumps to them have a target.
ghost use Rattle.std.specs.Prelude.{◌≡◌, ◌↔◌, IsTrue, IfOk, nat_eq};
ghost use Rattle.indexmap.specs.IndexMap.{get};
ghost use Rattle.op_forest.specs.Labels.{label_of as label_spec};
ghost use Rattle.forests.specs.FirstPlaces.{AreFirst, HasPlaces, HasTarget, StandsFirst};
ghost use Rattle.forests.specs.WellFormed.{label_in as label_in_spec, target_of as target_spec};

use indexmap::IndexMap;
use lcc_base::Memory;
use op_forest::{Op, Operands, Sym, Tree};
use std::alloc::Global;

/// The place of each label's first root.
pub(crate) fn label_places(alloc: Global, roots: &[Tree]) -> Result<IndexMap<u32, usize>, Memory>
    ensures { IfOk result (λ places. AreFirst 0 roots.now (get nat_eq places)) }
{
    let mut places = IndexMap::new(alloc);
    for root in (0..roots.len()).rev() {
        if let Some(label) = label_of(&roots[root]) {
            places.insert(label, root)?;
        }
    }
    Ok(places)
}

/// Whether the root at a place jumps to a label that has a place, if it jumps to one, and is none that
/// has another place.
pub(crate) fn has_labels(places: &IndexMap<u32, usize>, place: usize, tree: &Tree) -> bool
    ensures { IsTrue result ↔ HasPlaces (get nat_eq places.now) place tree.now }
{
    has_target(places, tree) && stands_first(places, place, tree)
}

/// Whether the root jumps to a label that has a place, if it jumps to one.
fn has_target(places: &IndexMap<u32, usize>, tree: &Tree) -> bool
    ensures { IsTrue result ↔ HasTarget (get nat_eq places.now) tree.now }
{
    match target_of(tree) {
        Some(label) => places.get(&label).is_some(),
        None => true,
    }
}

/// Whether the root is a label of this place, if it is a label.
fn stands_first(places: &IndexMap<u32, usize>, place: usize, tree: &Tree) -> bool
    ensures { IsTrue result ↔ StandsFirst (get nat_eq places.now) place tree.now }
{
    match label_of(tree) {
        Some(label) => places.get(&label).copied() == Some(place),
        None => true,
    }
}

/// The label that a root is, if it is one.
fn label_of(tree: &Tree) -> Option<u32>
    ensures { result ≡ label_spec tree.now }
{
    match (tree.operator.op, tree.sym) {
        (Op::Label, Sym::Label(label)) => Some(label),
        _ => None,
    }
}

/// The label that a root jumps to: it is a comparison, or a jump to the address of a label.
fn target_of(tree: &Tree) -> Option<u32>
    ensures { result ≡ target_spec tree.now }
{
    match (tree.operator.op, tree.operands()) {
        (Op::Eq | Op::Ne | Op::Lt | Op::Le | Op::Gt | Op::Ge, _) => label_in(tree.sym),
        (Op::Jump, Operands::Unary(a)) if a.operator.op == Op::Addrg => label_in(a.sym),
        _ => None,
    }
}

/// The label that a symbol is, if it is one.
fn label_in(sym: Sym) -> Option<u32>
    ensures { result ≡ label_in_spec sym }
{
    match sym {
        Sym::Label(label) => Some(label),
        _ => None,
    }
}
