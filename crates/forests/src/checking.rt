//! The check that a forest is well formed, and the first fault where it isn't.
ghost use Rattle.std.specs.Prelude.{◌≡◌, ◌↔◌, IsTrue, IfOk, IfErr, IfSome, IfNone, nat_eq};
ghost use Rattle.indexmap.specs.IndexMap.{get};
ghost use Rattle.forests.specs.FirstPlaces.{AreFirst};
ghost use Rattle.forests.specs.WellFormed.{IsWellFormed, IsFit};
ghost use Rattle.forests.specs.ForestFaults.{IsFaultOf, IsRootAnswer};

use crate::arities::has_arities;
use crate::calls::is_taken_from;
use crate::forest_fault::ForestFault;
use crate::kinds::has_kinds;
use crate::labels::{has_labels, label_places};
use crate::slots::{SlotTable, has_slots};
use crate::well_formed::WellFormed;
use indexmap::IndexMap;
use op_forest::{Forest, Op, Tree};
use std::alloc::Global;

/// The forest as a well-formed one, which is a copy, or why it isn't one.
pub fn check_forest(alloc: Global, forest: &Forest) -> Result<WellFormed, ForestFault>
    ensures found { IfOk result (λ w. w ≡ forest.now) }
    ensures well_formed { IfOk result (λ w. IsWellFormed w) }
    ensures fault { IfErr result (λ e. IsFaultOf forest.now e) }
{
    let places = label_places(alloc, forest.roots.as_slice())?;
    let table = SlotTable::of_slots(alloc, forest.frame.slots())?;
    if let Some(fault) = first_fault(forest, &places, &table) {
        return Err(fault);
    }
    let copy = Forest::copied(alloc, forest)?;
    Ok(WellFormed::of_forest(copy))
}

/// What is wrong with the first bad root, if one is bad.
fn first_fault(
    forest: &Forest,
    places: &IndexMap<u32, usize>,
    table: &SlotTable,
) -> Option<ForestFault>
    requires places { AreFirst 0 forest.now.roots (get nat_eq places.now) }
    requires slots { table.now ≡ forest.now.frame }
    ensures none { IfNone result (IsWellFormed forest.now) }
    ensures some { IfSome result (IsFaultOf forest.now) }
{
    let roots = forest.roots.as_slice();
    let mut fault = None;
    let mut is_taken = false;
    for root in (0..roots.len()).rev() {
        let tree = &roots[root];
        fault = root_fault(places, table, root, tree, is_taken).or(fault);
        is_taken = is_taken_from(tree, is_taken);
    }
    fault
}

/// What is wrong with a root, if it is bad.
fn root_fault(
    places: &IndexMap<u32, usize>,
    table: &SlotTable,
    root: usize,
    tree: &Tree,
    is_taken: bool,
) -> Option<ForestFault>
    ensures { IsRootAnswer table.now (get nat_eq places.now) root tree.now (IsTrue is_taken) result }
{
    if !has_arities(tree) {
        return Some(ForestFault::Arity { root });
    }
    if !is_fit(tree, is_taken) {
        return Some(ForestFault::Kind { root });
    }
    if !has_labels(places, root, tree) {
        return Some(ForestFault::Label { root });
    }
    if !has_slots(table, tree) {
        return Some(ForestFault::Slot { root });
    }
    None
}

/// Whether the operators have what they need, and the root is taken if it is an argument.
fn is_fit(tree: &Tree, is_taken: bool) -> bool
    ensures { IsTrue result ↔ IsFit tree.now (IsTrue is_taken) }
{
    has_kinds(tree) && (tree.operator.op != Op::Arg || is_taken)
}
