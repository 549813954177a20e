//! Whether what the forests of functions name is there.
ghost use Rattle.std.specs.Prelude.{◌≡◌, IsTrue, All, nat_eq, IfOk, OnOk};
ghost use Rattle.indexmap.specs.IndexMap.{get};
ghost use Rattle.op_forest.specs.Nodes.{head_of};
ghost use Rattle.whole_lowered.specs.Labels.{AreLabelsOf, HasLabels, KnowsFunction, KnowsSymbol, KnowsTree};

use crate::labels::{Labels, labels_in};
use lcc_base::Memory;
use op_forest::{LoweredFunction, Operands, Sym, Tree};
use std::alloc::Global;

/// The labels of each of the functions, which name what is there, where there are so many names. `Memory` comes where one doesn't.
pub(crate) fn known_functions(
    alloc: Global,
    functions: &[LoweredFunction],
    names: usize,
) -> Result<Vec<Labels>, Memory>
    ensures labels { IfOk result (λ all. AreLabelsOf functions.now all.items) }
    ensures known { OnOk result (All (KnowsFunction names) functions.now) }
{
    let mut all = Vec::with_capacity(alloc, functions.len())?;
    for function in functions {
        let labels = labels_in(alloc, function.forest.roots.as_slice())?;
        check_function(function, &labels, names)?;
        all.push(labels)?;
    }
    Ok(all)
}

// One of them.
fn check_function(function: &LoweredFunction, labels: &Labels, names: usize) -> Result<(), Memory>
    requires { HasLabels function.now.forest.roots (get nat_eq labels.now.places) }
    ensures { OnOk result (KnowsFunction names function.now) }
{
    if function.name as usize >= names {
        return Err(Memory);
    }
    for tree in function.forest.roots.as_slice() {
        if !is_known(tree, labels, names) {
            return Err(Memory);
        }
    }
    Ok(())
}

// Whether the symbol of each node of a tree is known.
fn is_known(tree: &Tree, labels: &Labels, names: usize) -> bool
    ensures { IsTrue result → KnowsTree names (get nat_eq labels.now.places) tree.now }
{
    if !has_known_symbol(symbol_of(tree), labels, names) {
        return false;
    }
    match tree.operands() {
        Operands::Leaf => true,
        Operands::Unary(a) => is_known(a, labels, names),
        Operands::Binary(a, b) => is_known(a, labels, names) && is_known(b, labels, names),
    }
}

// The symbol at a tree's root.
fn symbol_of(tree: &Tree) -> Sym
    ensures { result ≡ (head_of tree.now).sym }
{
    tree.sym
}

// Whether a symbol is.
fn has_known_symbol(sym: Sym, labels: &Labels, names: usize) -> bool
    ensures { IsTrue result → KnowsSymbol names (get nat_eq labels.now.places) sym }
{
    match sym {
        Sym::Global { name, .. } => (name as usize) < names,
        Sym::Label(label) => labels.has(label),
        _ => true,
    }
}
