//! The labels of a tree as they are read: cells, subtrees' ends, and the rules chosen.
ghost use Rattle.std.specs.Prelude.{◌≡◌, ◌≢◌, ◌+◌, ◌-◌, ◌≤◌, None, Some, length, slice_get};
ghost use Rattle.lburg_model.specs.Tree.{nodes};
ghost use Rattle.tree_labeller.specs.MCells.{MCells};
ghost use Rattle.tree_labeller.specs.Labelled.{Labelled, cell};
ghost use Rattle.tree_labeller.specs.Chosen.{Chosen};

use crate::board::Board;
use crate::cells::Cells;
use lburg_model::{Rule, TreeNode};
use lburg_tables::{Cell, Tables};

/// The rows of a tree, and the rules that it was labelled with.
#[derive(Clone, Copy, Debug)]
pub struct Labels<'a> {
    /// The description's rules.
    pub rules: &'a [Rule],
    /// The rows: a node's own stands before those of its operands.
    pub board: &'a Board,
}

/// The rule at the root of a derivation.
#[derive(Clone, Copy, Debug)]
pub struct Choice<'a> {
    /// Its number, from 1.
    pub number: u16,
    pub rule: &'a Rule,
}

/// The labels in these cells of a tree that was labelled with these tables.
pub fn labels_in<'a>(t: &'a Tables, cells: &'a Cells) -> Labels<'a>
    ensures rules { result.rules.now ≡ t.now.rules }
    ensures board { result.board.now ≡ cells.now }
{
    Labels {
        rules: t.description().rules(),
        board: &cells.board,
    }
}

// The rule of a number, from 1.
fn rule_of(rules: &[Rule], number: u16) -> &Rule
    requires first { 1 ≤ number }
    requires within { number ≤ length rules.now }
    ensures { slice_get rules.now (number - 1) ≡ Some result.now }
{
    &rules[number as usize - 1]
}

impl<'a> Labels<'a> {
    /// The cell of a nonterminal at a place.
    pub fn cell(&self, at: usize, n: usize) -> Option<Cell>
        ensures { result ≡ cell self.now.board.now.rows at n }
    {
        self.board.cell(at, n)
    }

    /// The place after the rows of the tree at a place.
    pub fn end<N: TreeNode>(&self, tree: &N, at: usize) -> usize
        requires { Labelled self.now.board.now.rows self.now.rules.now self.now.board.now.nonterminals at (N.tree tree.now) }
        ensures { result ≡ at + nodes (N.tree tree.now) }
    {
        self.board.end(at)
    }

    // The number of the rule that makes a cell.
    fn number<N: TreeNode>(&self, tree: &N, at: usize, n: usize) -> u16
        requires labelled { Labelled self.now.board.now.rows self.now.rules.now self.now.board.now.nonterminals at (N.tree tree.now) }
        requires some { cell self.now.board.now.rows at n ≢ None }
        ensures { Chosen self.now.board.now.rows self.now.rules.now n (N.tree tree.now) at result }
    {
        self.board.rule(at, n)
    }

    /// The rule at the root of a nonterminal's best derivation of the tree at a place, which its
    /// cell tells.
    pub fn choice<N: TreeNode>(&self, tree: &N, at: usize, n: usize) -> Choice<'a>
        requires labelled { Labelled self.now.board.now.rows self.now.rules.now self.now.board.now.nonterminals at (N.tree tree.now) }
        requires some { cell self.now.board.now.rows at n ≢ None }
        ensures chosen { Chosen self.now.board.now.rows self.now.rules.now n (N.tree tree.now) at result.number }
        ensures rule { slice_get self.now.rules.now (result.number - 1) ≡ Some result.rule.now }
    {
        let number = self.number(tree, at, n);
        let rule = rule_of(self.rules, number);
        Choice { number, rule }
    }
}
