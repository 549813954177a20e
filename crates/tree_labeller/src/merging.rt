//! The closure of a row under the chain rules, with ranges or without.
ghost use Rattle.std.specs.Prelude.{◌≡◌, ℕ, ◌+◌, ◌^◌, ◌<◌, ◌≤◌, ◌-◌, ℤ, Option, length};
ghost use Rattle.lburg_tables.specs.Leads.{HasRanged};
ghost use Rattle.lburg_tables.specs.Row.{CellAt, Offered, Closed, IsCheap};
ghost use Rattle.lburg_tables.specs.RowOf.{row_of};
ghost use Rattle.lburg_tables.specs.Waits.{IsIdle};
ghost use Rattle.lburg_tables.specs.declared.cell.Cell.{Cell as Cells};
ghost use Rattle.tree_labeller.specs.Merged.{after_chain, FitsAfter, AllFit, Extended};
ghost use Rattle.tree_labeller.specs.Trials.{ChainTrials};
ghost use Rattle.tree_labeller.specs.Tries.{HasCell, ClosingTries};

use lburg_tables::{BestChain, Cell, Tables, offer};
use lcc_base::Steps;
use place_queue::Queue;
use std::sync::ledger::Ledger;

/// What a row is filled from.
#[derive(Clone, Copy, Debug)]
pub(crate) struct BaseRow<'a> {
    pub(crate) tables: &'a Tables<'a>,
    /// The node's constant, if it has one.
    pub(crate) constant: Option<i64>,
    /// What the rules make at the node that are no chain rules.
    pub(crate) cells: &'a [Cell],
}

// Tries a chain on the cell where it starts.
fn try_chain(row: &mut [Cell], from: Cell, chain: &BestChain)
    requires fits { FitsAfter (length row.old) from chain.now }
    ensures { Offered (row_of row.old) chain.now.to (after_chain from chain.now) (row_of row.new) }
{
    let cost = from.cost + chain.cost;
    let to = chain.to as usize;
    // Mostly a cheaper cell stands there: then neither count nor rule is looked at.
    if row[to].is_below(cost) {
        return;
    }
    let cell = Cell {
        cost,
        count: from.count + chain.count,
        rule: chain.rule,
    };
    offer(row, to, cell);
}

// Tries the chains from a nonterminal on its cell.
fn extend<L: Ledger>(row: &mut [Cell], from: Cell, chains: &[BestChain], steps: &mut Steps<L>)
    requires fit { AllFit (length row.old) from chains.now }
    ensures extended { Extended chains.now from (length chains.now) (row_of row.old) (row_of row.new) }
    ensures steps { steps.new ≡ steps.old + length chains.now }
{
    for chain in chains {
        steps.tick();
        try_chain(row, from, chain);
    }
}

// Adds to a row, which is a copy of the base row, what the chain rules make of the base cells, where
// no chain rule has a range. Each base cell is read before any chain changes it.
fn merge_chains<L: Ledger>(tables: &Tables, base: &[Cell], row: &mut [Cell], steps: &mut Steps<L>)
    requires free { HasRanged tables.now.rules → ⊥ }
    requires copied { row.old ≡ base.now }
    requires wide { length tables.now.nonterminals ≤ length base.now }
    requires named { (n : ℕ) (c : Cells) → CellAt (row_of base.now) n c → n < length tables.now.nonterminals }
    requires short { (n : ℕ) (c : Cells) → CellAt (row_of base.now) n c → c.count + length base.now < 2 ^ 32 }
    requires cheap { IsCheap (row_of base.now) }
    ensures closed { (constant : Option ℤ) → Closed tables.now.rules constant (row_of base.now) (row_of row.new) }
    ensures steps { (n : ℕ) × ChainTrials tables.now (HasCell (row_of base.now)) (length tables.now.nonterminals) n × (steps.new ≡ steps.old + n) }
{
    let nonterminals = tables.description().nonterminals().len();
    for m in 0..nonterminals {
        if let Some(from) = base[m].seen() {
            extend(row, from, tables.best_chains(m), steps);
        }
    }
}

/// Fills the row of a node with this constant from its base row: adds what the chain rules make of
/// the base cells. Where no chain rule has a range, each best chain is tried on the base cell where
/// it starts; else the chain rules that apply at the node are tried one by one. A step is one chain
/// or rule that is tried on a cell.
/// Source: Fraser and Hanson, A Retargetable C Compiler, chapter 14.
#[inline(always)]
pub(crate) fn fill_from_base<L: Ledger>(
    tables: &Tables,
    constant: Option<i64>,
    base: &[Cell],
    row: &mut [Cell],
    queue: &mut Queue,
    steps: &mut Steps<L>,
)
    requires as_wide { length row.old ≡ length base.now }
    requires wide { length tables.now.nonterminals ≤ length base.now }
    requires narrow { length base.now < 2 ^ 32 - 1 }
    requires idle { IsIdle (length base.now) queue.old }
    requires named { (n : ℕ) (c : Cells) → CellAt (row_of base.now) n c → n < length tables.now.nonterminals }
    requires short { (n : ℕ) (c : Cells) → CellAt (row_of base.now) n c → c.count + length base.now < 2 ^ 32 }
    requires cheap { IsCheap (row_of base.now) }
    ensures closed { Closed tables.now.rules constant (row_of base.now) (row_of row.new) }
    ensures idle { IsIdle (length base.now) queue.new }
    ensures steps { (n : ℕ) × ClosingTries tables.now (row_of base.now) (row_of row.new) n × (steps.new ≡ steps.old + n) }
{
    row.copy_from_slice(base);
    if tables.has_ranged_chains() {
        tables.close_row(constant, row, queue, steps);
    } else {
        merge_chains(tables, base, row, steps);
    }
}
