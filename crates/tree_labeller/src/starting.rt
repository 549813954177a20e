//! The start of a node's row: the rules with its operator at their root, before any chain rule.
ghost use Rattle.std.specs.Prelude.{◌≡◌, ◌+◌, ◌-◌, ◌^◌, ◌<◌, ◌≤◌, length};
ghost use Rattle.lburg_model.specs.Tree.{nodes, op_of};
ghost use Rattle.lburg_tables.specs.Root.{Operator};
ghost use Rattle.lburg_tables.specs.Places.{with_root};
ghost use Rattle.lburg_tables.specs.Row.{Everywhere};
ghost use Rattle.lburg_tables.specs.RowOf.{row_of};
ghost use Rattle.tree_labeller.specs.Labelled.{Started, KidsLabelled, area};
ghost use Rattle.lburg_tables.specs.AreRules.{AreRules};

use crate::labels::Labels;
use crate::matching::rule_total_at;
use lburg_model::TreeNode;
use lburg_tables::{Cell, Tables, clear_row, offer};
use lcc_base::Steps;
use std::sync::ledger::Ledger;

/// What is tried at a node: the rules whose patterns have its operator at their root, on the rows of
/// its operands.
#[derive(Clone, Copy, Debug)]
pub(crate) struct NodeLabels<'a> {
    pub(crate) tables: &'a Tables<'a>,
    pub(crate) labels: Labels<'a>,
    /// The place of the node's row.
    pub(crate) at: usize,
}

/// Fills a row with what the rules make of the subtrees' rows, but for the chain rules.
pub(crate) fn start_row<N: TreeNode, L: Ledger>(
    node: &NodeLabels,
    tree: &N,
    row: &mut [Cell],
    steps: &mut Steps<L>,
)
    requires same { node.now.labels.rules.now ≡ node.now.tables.now.rules }
    requires wide { length row.old ≡ node.now.labels.board.now.nonterminals }
    requires are { AreRules node.now.labels.rules.now (length row.old) }
    requires small { area (length row.old) (N.tree tree.now) < 2 ^ 32 - 1 }
    requires room { node.now.at + nodes (N.tree tree.now) ≤ length node.now.labels.board.now.rows }
    requires reach { length node.now.labels.board.now.rows < 2 ^ 64 }
    requires kids { KidsLabelled node.now.labels.board.now.rows node.now.labels.rules.now (length row.old) node.now.at (N.tree tree.now) }
    ensures started { Started node.now.labels.board.now.rows node.now.labels.rules.now node.now.at (N.tree tree.now) (row_of row.new) Everywhere }
    ensures steps { steps.new ≡ steps.old + with_root (Operator (op_of (N.tree tree.now))) node.now.labels.rules.now }
{
    clear_row(row);
    let rules = node.labels.rules;
    let places = node.tables.rules_on(tree.op());
    for k in 0..places.len() {
        let place = places[k];
        let rule = &rules[place as usize];
        steps.tick();
        if let Some(key) = rule_total_at(&node.labels, rule, tree, node.at) {
            let cell = Cell {
                cost: key.cost + rule.cost as u64,
                count: key.count + 1,
                rule: place + 1,
            };
            offer(row, rule.left as usize, cell);
        }
    }
}
