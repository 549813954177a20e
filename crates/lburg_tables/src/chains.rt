//! The best chains from each nonterminal.
ghost use Rattle.std.specs.Prelude.{◌≡◌, ◌↔◌, ◌<◌, ◌≤◌, ◌^◌, ℕ, IfOk, IsTrue, List, Option, length};
ghost use Rattle.lburg_model.specs.Description.{MDescription, IsDescription};
ghost use Rattle.lburg_tables.specs.IsIndex.{IsIndex};
ghost use Rattle.lburg_tables.specs.AreRules.{AreRules};
ghost use Rattle.lburg_tables.specs.BestChains.{AreBest, AreBestOfEach};
ghost use Rattle.lburg_tables.specs.Leads.{IsRanged, HasRanged};
ghost use Rattle.lburg_tables.specs.Listed.{IsOrigin, Listed, chain_at};
ghost use Rattle.lburg_tables.specs.Row.{Closed};
ghost use Rattle.lburg_tables.specs.RowOf.{row_of};
ghost use Rattle.lburg_tables.specs.Waits.{IsIdle};
ghost use Rattle.lburg_tables.specs.declared.cell.Cell.{Cell as Cells};

use crate::best_chain::BestChain;
use crate::cell::{Cell, clear_row};
use crate::closing::{NodeRules, close_row};
use crate::index::Index;
use lburg_model::{Description, Pattern, Rule};
use lcc_base::{Items, Memory, Steps};
use place_queue::Queue;
use std::alloc::Global;
use std::marker::Brand;
use std::sync::ledger::{Blank, Ledger};

/// A derivation without cost or rules, on which chains are tried. It needs some rule number.
const ORIGIN: Cell = Cell {
    cost: 0,
    count: 0,
    rule: 1,
};

// Whether a rule is a chain rule with a range.
fn is_ranged(rule: &Rule) -> bool
    ensures { IsTrue result ↔ IsRanged rule.now }
{
    match rule.pattern {
        Pattern::Nonterminal(_) => rule.range.is_some(),
        _ => false,
    }
}

/// Whether some chain rule has a range.
pub(crate) fn has_ranged(rules: &[Rule]) -> bool
    ensures { IsTrue result ↔ HasRanged rules.now }
{
    for rule in rules {
        if is_ranged(rule) {
            return true;
        }
    }
    false
}

// Fills a row with what chain rules without a range make of a nonterminal.
fn close_from<L: Ledger>(
    node: &NodeRules,
    from: usize,
    row: &mut [Cell],
    queue: &mut Queue,
    steps: &mut Steps<L>,
)
    requires index { IsIndex node.now.rules.now node.now.index.now }
    requires are { AreRules node.now.rules.now (length row.old) }
    requires within { from < length row.old }
    requires idle { IsIdle (length row.old) queue.old }
    ensures closed { (origin : List (Option Cells)) × IsOrigin from origin × Closed node.now.rules.now node.now.constant origin (row_of row.new) }
    ensures idle { IsIdle (length row.old) queue.new }
{
    clear_row(row);
    row[from] = ORIGIN;
    close_row(node, row, queue, steps);
}

// The chain that a closed row tells, none to where it starts.
fn chain_to(row: &[Cell], from: usize, to: usize) -> Option<BestChain>
    requires within { to < length row.now }
    requires named { to < 2 ^ 16 }
    ensures { result ≡ chain_at (row_of row.now) from to }
{
    if to == from {
        return None;
    }
    match row[to].seen() {
        None => None,
        Some(cell) => Some(BestChain {
            cost: cell.cost,
            count: cell.count,
            rule: cell.rule,
            to: to as u16,
        }),
    }
}

// The chains that a closed row tells.
fn list_chains(alloc: Global, row: &[Cell], from: usize) -> Result<Items<BestChain>, Memory>
    requires { length row.now < 2 ^ 16 }
    ensures { IfOk result (λ chains. Listed (row_of row.now) from (length row.now) chains) }
{
    let mut chains = Items::new(alloc);
    for to in 0..row.len() {
        if let Some(chain) = chain_to(row, from, to) {
            chains.push(chain)?;
        }
    }
    Ok(chains)
}

// The best chains from each nonterminal, with steps counted on the ledger of the blank.
fn best_of_each<L: Ledger>(
    alloc: Global,
    blank: Blank,
    d: &Description,
    index: &Index,
) -> Result<Vec<Items<BestChain>>, Memory>
    requires name { blank.name ≡ L.name }
    requires parts { blank.parts ≡ L.parts }
    requires some { 0 < blank.parts }
    requires index { IsIndex d.now.rules index.now }
    ensures { IfOk result (λ table. AreBestOfEach d.now table.items) }
{
    let width = d.nonterminals().len();
    let mut steps = Steps::<L>::new(blank);
    let mut row = vec![in alloc; Cell::NONE; width]?;
    let mut queue = Queue::reserve(alloc, width)?;
    let node = NodeRules {
        rules: d.rules(),
        index,
        constant: None,
    };
    let mut table = Vec::with_capacity(alloc, width)?;
    for from in 0..width {
        close_from(&node, from, &mut row, &mut queue, &mut steps);
        table.push(list_chains(alloc, &row, from)?)?;
    }
    Ok(table)
}

/// The best chains from each nonterminal. `Memory` comes where an allocation is refused.
pub(crate) fn best_chains(
    alloc: Global,
    d: &Description,
    index: &Index,
) -> Result<Vec<Items<BestChain>>, Memory>
    requires { IsIndex d.now.rules index.now }
    ensures { IfOk result (λ table. AreBestOfEach d.now table.items) }
{
    best_of_each::<Brand>(alloc, Blank::new(1), d, index)
}
