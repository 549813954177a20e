//! The labeller: it fills the rows of a tree from the leaves up.
ghost use Rattle.std.specs.Prelude.{◌≡◌, ℕ, ◌+◌, ◌*◌, ◌-◌, ◌^◌, ◌<◌, ◌≤◌, ◌⊎◌, length, slice_get};
ghost use Rattle.lburg_model.specs.Tree.{nodes, op_of, kids_of, value_of};
ghost use Rattle.tree_labeller.specs.Labelled.{Started, KidsLabelled, area, Labelled};
ghost use Rattle.lburg_tables.specs.Row.{Everywhere};
ghost use Rattle.lburg_tables.specs.AreRules.{AreRules};
ghost use Rattle.tree_labeller.specs.ChainRules.{chain_rules};
ghost use Rattle.lburg_tables.specs.Places.{with_root};
ghost use Rattle.lburg_tables.specs.Root.{Operator};
ghost use Rattle.tree_labeller.specs.RowFilled.{RowFilled};
ghost use Rattle.tree_labeller.specs.Trials.{Trials, TrialsOfEach};
ghost use Rattle.lburg_tables.specs.RowOf.{row_of};
ghost use Rattle.tree_labeller.specs.IsCells.{IsScratch};
ghost use Rattle.tree_labeller.specs.MCells.{HasRoom, room};
ghost use Rattle.tree_labeller.specs.IsLabelled.{IsLabelled};

use crate::board::Board;
use crate::cells::{Cells, Scratch};
use crate::labels::Labels;
use crate::merging::BaseRow;
use crate::starting::{NodeLabels, start_row};
use lburg_model::{Rule, TreeNode};
use lburg_tables::Tables;
use lcc_base::Steps;
use std::sync::ledger::Ledger;

/// What the labelling of a node takes of the tables.
#[derive(Clone, Copy, Debug)]
struct Grammar<'a> {
    tables: &'a Tables<'a>,
    /// The description's rules.
    rules: &'a [Rule],
}

// Fills a node's own row, and notes the place after the rows of its subtree.
fn fill_row<N: TreeNode, L: Ledger>(
    grammar: &Grammar,
    tree: &N,
    at: usize,
    end: usize,
    board: &mut Board,
    scratch: &mut Scratch,
    steps: &mut Steps<L>,
)
    requires same { grammar.now.rules.now ≡ grammar.now.tables.now.rules }
    requires scratch { IsScratch board.old.nonterminals scratch.old.base.items scratch.old.queue }
    requires wide { length grammar.now.tables.now.nonterminals ≤ board.old.nonterminals }
    requires named { AreRules grammar.now.rules.now (length grammar.now.tables.now.nonterminals) }
    requires are { AreRules grammar.now.rules.now board.old.nonterminals }
    requires small { area board.old.nonterminals (N.tree tree.now) < 2 ^ 32 - 1 }
    requires room { at + nodes (N.tree tree.now) ≤ length board.old.rows }
    requires reach { length board.old.rows < 2 ^ 64 }
    requires kids { KidsLabelled board.old.rows grammar.now.rules.now board.old.nonterminals at (N.tree tree.now) }
    ensures started { Started board.old.rows grammar.now.rules.now at (N.tree tree.now) (row_of scratch.new.base.items) Everywhere }
    ensures scratch { IsScratch board.old.nonterminals scratch.new.base.items scratch.new.queue }
    ensures filled { (n : ℕ) × RowFilled grammar.now.tables.now (value_of (N.tree tree.now)) (row_of scratch.new.base.items) at end board.old.rows board.new.rows n × (steps.new ≡ steps.old + (with_root (Operator (op_of (N.tree tree.now))) grammar.now.rules.now + n)) }
    ensures width { board.new.nonterminals ≡ board.old.nonterminals }
{
    let node = NodeLabels {
        tables: grammar.tables,
        labels: Labels {
            rules: grammar.rules,
            board,
        },
        at,
    };
    start_row(&node, tree, scratch.base.as_mut_slice(), steps);
    let base = BaseRow {
        tables: grammar.tables,
        constant: tree.value(),
        cells: &scratch.base,
    };
    board.fill(at, end, &base, &mut scratch.queue, steps);
}

// Labels a tree: its rows stand from `at` on. Returns the place after them.
#[cycle(label)]
fn label_at<N: TreeNode, L: Ledger>(
    grammar: &Grammar,
    tree: &N,
    at: usize,
    board: &mut Board,
    scratch: &mut Scratch,
    steps: &mut Steps<L>,
) -> usize
    requires same { grammar.now.rules.now ≡ grammar.now.tables.now.rules }
    requires wide { length grammar.now.tables.now.nonterminals ≤ board.old.nonterminals }
    requires named { AreRules grammar.now.rules.now (length grammar.now.tables.now.nonterminals) }
    requires are { AreRules grammar.now.rules.now board.old.nonterminals }
    requires scratch { IsScratch board.old.nonterminals scratch.old.base.items scratch.old.queue }
    requires small { area board.old.nonterminals (N.tree tree.now) < 2 ^ 32 - 1 }
    requires room { at + nodes (N.tree tree.now) ≤ length board.old.rows }
    requires reach { length board.old.rows < 2 ^ 64 }
    ensures next { result ≡ at + nodes (N.tree tree.now) }
    ensures others { (i : ℕ) → (i < at) ⊎ (at + nodes (N.tree tree.now) ≤ i) → slice_get board.new.rows i ≡ slice_get board.old.rows i }
    ensures board { HasRoom board.new (room board.old) board.old.nonterminals }
    ensures scratch { IsScratch board.old.nonterminals scratch.new.base.items scratch.new.queue }
    ensures labelled { Labelled board.new.rows grammar.now.rules.now board.old.nonterminals at (N.tree tree.now) }
    ensures trials { (n : ℕ) × Trials grammar.now.tables.now (N.tree tree.now) n × (steps.new ≡ steps.old + n) }
{
    let next = label_kids(grammar, tree, at, board, scratch, steps);
    fill_row(grammar, tree, at, next, board, scratch, steps);
    next
}

// Labels the operands of a tree: their rows stand behind the place of its own. Returns the place
// after them.
#[cycle(label)]
fn label_kids<N: TreeNode, L: Ledger>(
    grammar: &Grammar,
    tree: &N,
    at: usize,
    board: &mut Board,
    scratch: &mut Scratch,
    steps: &mut Steps<L>,
) -> usize
    requires same { grammar.now.rules.now ≡ grammar.now.tables.now.rules }
    requires wide { length grammar.now.tables.now.nonterminals ≤ board.old.nonterminals }
    requires named { AreRules grammar.now.rules.now (length grammar.now.tables.now.nonterminals) }
    requires are { AreRules grammar.now.rules.now board.old.nonterminals }
    requires scratch { IsScratch board.old.nonterminals scratch.old.base.items scratch.old.queue }
    requires small { area board.old.nonterminals (N.tree tree.now) < 2 ^ 32 - 1 }
    requires room { at + nodes (N.tree tree.now) ≤ length board.old.rows }
    requires reach { length board.old.rows < 2 ^ 64 }
    ensures next { result ≡ at + nodes (N.tree tree.now) }
    ensures others { (i : ℕ) → (i ≤ at) ⊎ (at + nodes (N.tree tree.now) ≤ i) → slice_get board.new.rows i ≡ slice_get board.old.rows i }
    ensures board { HasRoom board.new (room board.old) board.old.nonterminals }
    ensures scratch { IsScratch board.old.nonterminals scratch.new.base.items scratch.new.queue }
    ensures kids { KidsLabelled board.new.rows grammar.now.rules.now board.old.nonterminals at (N.tree tree.now) }
    ensures trials { (n : ℕ) × TrialsOfEach grammar.now.tables.now (kids_of (N.tree tree.now)) n × (steps.new ≡ steps.old + n) }
{
    match tree.arity() {
        0 => at + 1,
        1 => label_at(grammar, tree.kid(0), at + 1, board, scratch, steps),
        _ => {
            let middle = label_at(grammar, tree.kid(0), at + 1, board, scratch, steps);
            label_at(grammar, tree.kid(1), middle, board, scratch, steps)
        }
    }
}

/// Labels a tree. It takes no memory and refuses nothing. A step is one rule or chain that is tried
/// at one node: each rule whose pattern has the node's operator at its root; and each best chain from
/// a nonterminal that such a rule derives there or, where some chain rule has a range, each chain
/// rule from a nonterminal that has a derivation there. The bound is by the tree's nodes, and the
/// rules, nonterminals and chain rules of the tables.
/// Source: Aho, Ganapathi and Tjiang, Code generation using tree matching and dynamic programming.
pub fn label<N: TreeNode, L: Ledger>(t: &Tables, tree: &N, cells: &mut Cells, steps: &mut Steps<L>)
    requires nodes { nodes (N.tree tree.now) ≤ room cells.old }
    requires nonterminals { length t.now.nonterminals ≤ cells.old.nonterminals }
    ensures labelled { IsLabelled t.now cells.new (N.tree tree.now) }
    ensures room { HasRoom cells.new (room cells.old) cells.old.nonterminals }
    ensures trials { (n : ℕ) × Trials t.now (N.tree tree.now) n × (steps.new ≡ steps.old + n) }
    ensures steps { steps.new ≤ steps.old + nodes (N.tree tree.now) * (length t.now.rules + length t.now.nonterminals * chain_rules t.now.rules) }
    ensures kept { steps.old ≤ steps.new }
{
    let grammar = Grammar {
        tables: t,
        rules: t.description().rules(),
    };
    label_at(
        &grammar,
        tree,
        0,
        &mut cells.board,
        &mut cells.scratch,
        steps,
    );
}
