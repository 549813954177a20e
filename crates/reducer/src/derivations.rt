//! The best derivations of labelled trees, built as trees of rules.
ghost use Rattle.std.specs.Prelude.{◌≡◌, ◌≢◌, ℕ, ◌^◌, ◌<◌, ◌≤◌, None, All, map, length, IfOk, OnOk};
ghost use Rattle.lburg_model.specs.Tree.{MTree, nodes};
ghost use Rattle.lburg_model.specs.Pattern.{pattern_of};
ghost use Rattle.lburg_model.specs.Best.{IsBest, HasNone};
ghost use Rattle.lburg_model.specs.DerivationOf.{derivation_of};
ghost use Rattle.tree_labeller.specs.Labelled.{total, Labelled, cell};
ghost use Rattle.tree_labeller.specs.IsLabelled.{IsLabelled};
ghost use Rattle.tree_labeller.specs.MCells.{room, HasRoom};
ghost use Rattle.reducer.specs.Built.{Built, PartsAdded};
ghost use Rattle.reducer.specs.AreBest.{AreBest};

use lburg_model::{Derivation, Description, Pattern, TreeNode};
use lburg_tables::{Tables, build};
use lcc_base::{Items, Memory, Steps};
use std::alloc::Global;
use std::marker::Brand;
use std::sync::ledger::{Blank, Ledger};
use tree_labeller::{Cells, Labels, label, labels_in, most_nodes};

// How many nonterminals a pattern has.
fn nonterminal_count(pattern: &Pattern) -> usize {
    match pattern {
        Pattern::Nonterminal(_) => 1,
        Pattern::Leaf(_) => 0,
        Pattern::Unary(_, p) => nonterminal_count(p),
        Pattern::Binary(_, p, q) => nonterminal_count(p).saturating_add(nonterminal_count(q)),
    }
}

// The best derivation of a nonterminal, which its cell tells.
#[cycle(derive)]
fn derivation_at<N: TreeNode>(
    alloc: Global,
    labels: &Labels,
    n: usize,
    tree: &N,
    at: usize,
) -> Result<Derivation, Memory>
    requires room { length labels.now.board.now.rows < 2 ^ 64 }
    requires labelled { Labelled labels.now.board.now.rows labels.now.rules.now labels.now.board.now.nonterminals at (N.tree tree.now) }
    requires some { cell labels.now.board.now.rows at n ≢ None }
    ensures { IfOk result (Built labels.now.board.now.rows labels.now.rules.now n (N.tree tree.now) at) }
{
    let choice = labels.choice(tree, at, n);
    let pattern = &choice.rule.pattern;
    let mut parts = Items::with_capacity(alloc, nonterminal_count(pattern))?;
    add_parts(alloc, labels, pattern, tree, at, &mut parts)?;
    Ok(Derivation {
        rule: choice.number,
        parts,
    })
}

// Adds the derivations of the nonterminals that a pattern needs, from left to right.
#[cycle(derive)]
#[tactic(auto, using(crate::proofs::Kept::next_place))]
fn add_parts<N: TreeNode>(
    alloc: Global,
    labels: &Labels,
    pattern: &Pattern,
    tree: &N,
    at: usize,
    parts: &mut Items<Derivation>,
) -> Result<(), Memory>
    requires room { length labels.now.board.now.rows < 2 ^ 64 }
    requires labelled { Labelled labels.now.board.now.rows labels.now.rules.now labels.now.board.now.nonterminals at (N.tree tree.now) }
    requires some { total labels.now.board.now.rows (pattern_of pattern.now) (N.tree tree.now) at ≢ None }
    ensures { OnOk result (PartsAdded labels.now.board.now.rows labels.now.rules.now (pattern_of pattern.now) (N.tree tree.now) at parts.old parts.new) }
{
    match pattern {
        Pattern::Nonterminal(n) => {
            let part = derivation_at(alloc, labels, *n as usize, tree, at)?;
            parts.push(part)
        }
        Pattern::Leaf(_) => Ok(()),
        Pattern::Unary(_, p) => add_parts(alloc, labels, p, tree.kid(0), at + 1, parts),
        Pattern::Binary(_, p, q) => {
            let first = tree.kid(0);
            let next = labels.end(first, at + 1);
            add_parts(alloc, labels, p, first, at + 1, parts)?;
            add_parts(alloc, labels, q, tree.kid(1), next, parts)
        }
    }
}

/// The best derivation from the start symbol of the tree that was labelled with these tables, and
/// has one. `Memory` comes where an allocation is refused.
/// Source: Fraser and Hanson, A Retargetable C Compiler, chapter 14.
#[tactic(auto, using(crate::proofs::Kept::labelled_in, crate::proofs::Kept::start_some))]
pub fn best_derivation<N: TreeNode>(
    alloc: Global,
    t: &Tables,
    tree: &N,
    cells: &Cells,
) -> Result<Derivation, Memory>
    requires labelled { IsLabelled t.now cells.now (N.tree tree.now) }
    requires covered { HasNone t.now (N.tree tree.now) → ⊥ }
    ensures { IfOk result (λ x. IsBest t.now (N.tree tree.now) (derivation_of x)) }
{
    let labels = labels_in(t, cells);
    // The walk's places stay below this number.
    let _nodes = cells.nodes();
    derivation_at(alloc, &labels, t.description().start() as usize, tree, 0)
}

// The best derivations of trees, which are labelled in the same cells one after another.
fn derive_trees<N: TreeNode, L: Ledger>(
    alloc: Global,
    t: &Tables,
    trees: &[N],
    cells: &mut Cells,
    steps: &mut Steps<L>,
) -> Result<Items<Derivation>, Memory>
    requires covered { All (λ x. HasNone t.now (N.tree x) → ⊥) trees.now }
    requires nodes { All (λ x. nodes (N.tree x) ≤ room cells.old) trees.now }
    requires nonterminals { length t.now.nonterminals ≤ cells.old.nonterminals }
    ensures { IfOk result (λ xs. AreBest t.now (map N.tree trees.now) (map derivation_of xs)) }
{
    let mut all = Items::with_capacity(alloc, trees.len())?;
    for tree in trees {
        label(t, tree, cells, steps);
        let best = best_derivation(alloc, t, tree, cells)?;
        all.push(best)?;
    }
    Ok(all)
}

// The same, with tables and cells of their own.
fn derive_all<N: TreeNode, L: Ledger>(
    alloc: Global,
    blank: Blank,
    d: &Description,
    trees: &[N],
) -> Result<Items<Derivation>, Memory>
    requires name { blank.name ≡ L.name }
    requires parts { blank.parts ≡ L.parts }
    requires some { 0 < blank.parts }
    requires covered { All (λ x. HasNone d.now (N.tree x) → ⊥) trees.now }
    requires small { All (λ x. nodes (N.tree x) ≤ 2 ^ 25) trees.now }
    ensures { IfOk result (λ xs. AreBest d.now (map N.tree trees.now) (map derivation_of xs)) }
{
    let t = build(alloc, d)?;
    let mut cells = Cells::reserve(alloc, most_nodes(trees), d.nonterminals().len())?;
    let mut steps = Steps::<L>::new(blank);
    derive_trees(alloc, &t, trees, &mut cells, &mut steps)
}

/// The best derivations from the start symbol of trees that have one, in the trees' order. Each
/// tree is labelled once, in cells that are reserved once for the largest, so the time is linear in
/// the trees' nodes; 33,554,432 nodes are few enough for the 127 nonterminals that a description
/// may have. `Memory` comes where an allocation is refused.
/// Source: Fraser and Hanson, A Retargetable C Compiler, chapter 14.
pub fn best_derivations<N: TreeNode>(
    alloc: Global,
    d: &Description,
    trees: &[N],
) -> Result<Items<Derivation>, Memory>
    requires covered { All (λ x. HasNone d.now (N.tree x) → ⊥) trees.now }
    requires small { All (λ x. nodes (N.tree x) ≤ 2 ^ 25) trees.now }
    ensures many { IfOk result (λ xs. length xs ≡ length trees.now) }
    ensures best { IfOk result (λ xs. AreBest d.now (map N.tree trees.now) (map derivation_of xs)) }
{
    derive_all::<N, Brand>(alloc, Blank::new(1), d, trees)
}
