//! The reducer: a visitor is shown the rules of a labelled tree's best derivation, one at a time.
ghost use Rattle.std.specs.Prelude.{◌≡◌, ◌≢◌, ℕ, ◌-◌, ◌^◌, ◌<◌, ◌≤◌, None, Some, length, slice_get};
ghost use Rattle.lburg_model.specs.Tree.{MTree};
ghost use Rattle.lburg_model.specs.Pattern.{pattern_of};
ghost use Rattle.tree_labeller.specs.Labelled.{total, Labelled, cell};
ghost use Rattle.lburg_model.specs.Derivation.{MDerivation, applied};
ghost use Rattle.lburg_model.specs.Best.{IsBest, HasNone};
ghost use Rattle.tree_labeller.specs.IsLabelled.{IsLabelled};
ghost use Rattle.reducer.specs.Runs.{Runs};
ghost use Rattle.tree_labeller.specs.Chosen.{Chosen};
ghost use Rattle.reducer.specs.Reduced.{Reduced, Walked};

use lburg_model::{Pattern, TreeNode};
use lburg_tables::Tables;
use tree_labeller::{Cells, Labels, labels_in};

/// Takes the rules of a derivation, one at a time.
pub trait Visitor<N> {
    /// What a call leaves, given the state before it, the rule's number and the node.
    ghost takes: { Self → ℕ → N → Self → Type 0 };

    /// Takes the rule of this number, from 1, which is applied at the node.
    fn rule(&mut self, number: u16, node: &N)
        ensures { takes self.old number node.now self.new };
}

// Visits the rules of the best derivation of a nonterminal, which its cell tells.
#[cycle(reduce)]
#[inline(always)]
fn reduce_at<N: TreeNode, V: Visitor<N>>(
    labels: &Labels,
    n: usize,
    tree: &N,
    at: usize,
    visitor: &mut V,
)
    requires room { length labels.now.board.now.rows < 2 ^ 64 }
    requires labelled { Labelled labels.now.board.now.rows labels.now.rules.now labels.now.board.now.nonterminals at (N.tree tree.now) }
    requires some { cell labels.now.board.now.rows at n ≢ None }
    ensures { Reduced labels.now.board.now.rows labels.now.rules.now N.tree V.takes n (N.tree tree.now) at visitor.old visitor.new }
{
    let choice = labels.choice(tree, at, n);
    visitor.rule(choice.number, tree);
    walk(labels, &choice.rule.pattern, tree, at, visitor);
}

// Visits the rules of the parts that a pattern needs.
#[cycle(reduce)]
#[tactic(auto, using(crate::proofs::Kept::next_place))]
fn walk<N: TreeNode, V: Visitor<N>>(
    labels: &Labels,
    pattern: &Pattern,
    tree: &N,
    at: usize,
    visitor: &mut V,
)
    requires room { length labels.now.board.now.rows < 2 ^ 64 }
    requires labelled { Labelled labels.now.board.now.rows labels.now.rules.now labels.now.board.now.nonterminals at (N.tree tree.now) }
    requires some { total labels.now.board.now.rows (pattern_of pattern.now) (N.tree tree.now) at ≢ None }
    ensures { Walked labels.now.board.now.rows labels.now.rules.now N.tree V.takes (pattern_of pattern.now) (N.tree tree.now) at visitor.old visitor.new }
{
    match pattern {
        Pattern::Nonterminal(n) => reduce_at(labels, *n as usize, tree, at, visitor),
        Pattern::Leaf(_) => {}
        Pattern::Unary(_, p) => walk_part(labels, p, tree.kid(0), at + 1, visitor),
        Pattern::Binary(_, p, q) => {
            let first = tree.kid(0);
            let next = labels.end(first, at + 1);
            walk_part(labels, p, first, at + 1, visitor);
            walk_part(labels, q, tree.kid(1), next, visitor);
        }
    }
}

// The same for a part of a pattern, which is mostly a nonterminal: then it takes no further call.
#[cycle(reduce)]
#[inline(always)]
#[tactic(auto, using(crate::proofs::Kept::next_place))]
fn walk_part<N: TreeNode, V: Visitor<N>>(
    labels: &Labels,
    pattern: &Pattern,
    tree: &N,
    at: usize,
    visitor: &mut V,
)
    requires room { length labels.now.board.now.rows < 2 ^ 64 }
    requires labelled { Labelled labels.now.board.now.rows labels.now.rules.now labels.now.board.now.nonterminals at (N.tree tree.now) }
    requires some { total labels.now.board.now.rows (pattern_of pattern.now) (N.tree tree.now) at ≢ None }
    ensures { Walked labels.now.board.now.rows labels.now.rules.now N.tree V.takes (pattern_of pattern.now) (N.tree tree.now) at visitor.old visitor.new }
{
    match pattern {
        Pattern::Nonterminal(n) => reduce_at(labels, *n as usize, tree, at, visitor),
        _ => walk(labels, pattern, tree, at, visitor),
    }
}

/// Visits the rules of the best derivation from the start symbol in preorder, each with the node
/// at which it is applied. The tree was labelled with these tables, and has a derivation. It takes
/// no memory.
/// Source: Fraser and Hanson, A Retargetable C Compiler, chapter 14.
#[tactic(auto, using(crate::proofs::Kept::labelled_in, crate::proofs::Kept::start_some))]
pub fn reduce<N: TreeNode, V: Visitor<N>>(t: &Tables, tree: &N, cells: &Cells, visitor: &mut V)
    requires labelled { IsLabelled t.now cells.now (N.tree tree.now) }
    requires covered { HasNone t.now (N.tree tree.now) → ⊥ }
    ensures visits { (x : MDerivation) × IsBest t.now (N.tree tree.now) x × Runs N.tree V.takes (applied t.now.rules (N.tree tree.now) x) visitor.old visitor.new }
{
    let labels = labels_in(t, cells);
    // The walk's places stay below this number.
    let _nodes = cells.nodes();
    reduce_at(&labels, t.description().start() as usize, tree, 0, visitor);
}
