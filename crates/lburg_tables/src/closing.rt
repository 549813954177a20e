//! The closure of a node's cells under the chain rules, least cell first.
ghost use Rattle.std.specs.Prelude.{◌≡◌, ℕ, ◌+◌, ◌-◌, ◌^◌, ◌<◌, ◌≤◌, length, Option, None, Some};
ghost use Rattle.lburg_tables.specs.Root.{Chain};
ghost use Rattle.lburg_tables.specs.Places.{with_root};
ghost use Rattle.lburg_tables.specs.Row.{CellAt, Relaxed, Spread, IsMade, IsCheap, Closed, Everywhere};
ghost use Rattle.lburg_tables.specs.RowOf.{row_of, waiting_of};
ghost use Rattle.lburg_tables.specs.Waits.{Matches, IsIdle};
ghost use Rattle.lburg_tables.specs.AreRules.{AreRules};
ghost use Rattle.lburg_tables.specs.ChainTries.{chain_tries};
ghost use Rattle.lburg_tables.specs.IsIndex.{IsIndex};
ghost use Rattle.lburg_tables.specs.declared.cell.Cell.{Cell as Cells};

use crate::cell::{Cell, offer};
use crate::index::{Index, places_at};
use lburg_model::Rule;
use lcc_base::Steps;
use place_queue::Queue;
use std::sync::ledger::Ledger;

/// Stores a new cell where it is less than the old one by cost, then count, then rule number, and
/// lets its nonterminal wait.
fn relax(row: &mut [Cell], queue: &mut Queue, n: usize, new: Cell)
    requires within { n < length row.old }
    requires some { 1 ≤ new.rule }
    requires matches { Matches (row_of row.old) queue.old }
    ensures relaxed { Relaxed (row_of row.old) queue.old n new (row_of row.new) queue.new }
    ensures matches { Matches (row_of row.new) queue.new }
{
    if offer(row, n, new) {
        queue.put(n, new.key());
    }
}

/// The rules at a node.
#[derive(Clone, Copy, Debug)]
pub(crate) struct NodeRules<'a> {
    /// The rules.
    pub(crate) rules: &'a [Rule],
    /// The rules' places.
    pub(crate) index: &'a Index,
    /// The node's constant, if it has one.
    pub(crate) constant: Option<i64>,
}

// What the rule of a place makes of a cell at a node with this constant, none where it does not
// apply there.
fn made_from(rule: &Rule, place: u16, constant: Option<i64>, from: Cell) -> Option<Cell>
    requires place { place < 2 ^ 16 - 1 }
    requires cheap { from.cost < 2 ^ 63 }
    requires short { from.count < 2 ^ 32 - 1 }
    ensures { IsMade constant from place rule.now result }
{
    if rule.applies(constant) {
        Some(Cell {
            cost: from.cost + rule.cost as u64,
            count: from.count + 1,
            rule: place + 1,
        })
    } else {
        None
    }
}

// Tries the chain rules from a nonterminal on its cell.
fn spread<L: Ledger>(
    node: &NodeRules,
    m: usize,
    from: Cell,
    row: &mut [Cell],
    queue: &mut Queue,
    steps: &mut Steps<L>,
)
    requires index { IsIndex node.now.rules.now node.now.index.now }
    requires are { AreRules node.now.rules.now (length row.old) }
    requires cheap { from.cost < 2 ^ 63 }
    requires short { from.count < 2 ^ 32 - 1 }
    requires matches { Matches (row_of row.old) queue.old }
    ensures spread { Spread node.now.rules.now node.now.constant m from (row_of row.old) queue.old (row_of row.new) queue.new Everywhere }
    ensures matches { Matches (row_of row.new) queue.new }
    ensures steps { steps.new ≡ steps.old + with_root (Chain m) node.now.rules.now }
{
    let places = places_at(&node.index.chains, m);
    for k in 0..places.len() {
        let place = places[k];
        let rule = &node.rules[place as usize];
        steps.tick();
        if let Some(cell) = made_from(rule, place, node.constant, from) {
            relax(row, queue, rule.left as usize, cell);
        }
    }
}

// Lets each cell of a row wait.
fn wait_all(row: &[Cell], queue: &mut Queue)
    requires { IsIdle (length row.now) queue.old }
    ensures { queue.new ≡ waiting_of (row_of row.now) }
{
    for n in 0..row.len() {
        if let Some(cell) = row[n].seen() {
            queue.put(n, cell.key());
        }
    }
}

/// Adds to a node's row what the chain rules make of its cells. The least cell that waits is the
/// next to be tried, so that each chain rule is tried on a cell once.
/// Source: Dijkstra, A note on two problems in connexion with graphs, 1959.
pub(crate) fn close_row<L: Ledger>(
    node: &NodeRules,
    row: &mut [Cell],
    queue: &mut Queue,
    steps: &mut Steps<L>,
)
    requires index { IsIndex node.now.rules.now node.now.index.now }
    requires are { AreRules node.now.rules.now (length row.old) }
    requires idle { IsIdle (length row.old) queue.old }
    requires short { (n : ℕ) (c : Cells) → CellAt (row_of row.old) n c → c.count + length row.old < 2 ^ 32 }
    requires cheap { IsCheap (row_of row.old) }
    ensures closed { Closed node.now.rules.now node.now.constant (row_of row.old) (row_of row.new) }
    ensures idle { IsIdle (length row.old) queue.new }
    ensures steps { steps.new ≡ steps.old + chain_tries (row_of row.new) node.now.rules.now }
{
    wait_all(row, queue);
    while let Some((m, _)) = queue.take() {
        let from = row[m];
        spread(node, m, from, row, queue, steps);
    }
}
