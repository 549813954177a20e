//! The board of a tree's labels: a row of cells for each node, in preorder.
ghost use Rattle.std.specs.Prelude.{◌≡◌, ◌≢◌, ℕ, None, Some, ◌+◌, ◌*◌, ◌-◌, ◌^◌, ◌<◌, ◌≤◌, IfOk, length, slice_get};
ghost use Rattle.tree_labeller.specs.Labelled.{cell, end_of};
ghost use Rattle.tree_labeller.specs.MCells.{MCells, HasRoom, room};
ghost use Rattle.lburg_tables.specs.Row.{CellAt, IsCheap};
ghost use Rattle.lburg_tables.specs.RowOf.{row_of};
ghost use Rattle.lburg_tables.specs.Waits.{IsIdle};
ghost use Rattle.lburg_tables.specs.declared.cell.Cell.{Cell as CellValue};
ghost use Rattle.tree_labeller.specs.Rows.{rows_of};
ghost use Rattle.tree_labeller.specs.RowFilled.{CellsFilled, RowFilled};

use crate::merging::{BaseRow, fill_from_base};
use lburg_tables::Cell;
use lcc_base::{Memory, Steps};
use place_queue::Queue;
use std::alloc::Global;
use std::marker::Model;
use std::sync::ledger::Ledger;

/// The rows of a tree's nodes, one behind another: for each node a cell for each nonterminal, and the
/// place after the rows of its subtree. A node's own row stands before those of its operands.
#[derive(Debug, Drop)]
pub struct Board {
    width: usize,
    ends: Vec<usize>,
    cells: Vec<Cell>,
}

impl Model for Board {
    ghost use Rattle.tree_labeller.specs.MCells.{MCells};
    ghost use Rattle.tree_labeller.specs.IsCells.{IsBoard};
    ghost use Rattle.tree_labeller.specs.Rows.{rows_of};

    ghost Value = { MCells };

    ghost view = { λ b. record { nonterminals = b.width; rows = rows_of b.width b.ends.items b.cells.items } };

    ghost invariant = { λ b. IsBoard b.width b.ends.items b.cells.items };
}

/// So many cells without derivations.
pub(crate) fn empty_cells(alloc: Global, many: usize) -> Result<Vec<Cell>, Memory>
    ensures { IfOk result (λ cells. length cells.items ≡ many) }
{
    let mut cells = Vec::with_capacity(alloc, many)?;
    for _ in 0..many {
        cells.push(Cell::NONE)?;
    }
    Ok(cells)
}

/// So many places.
fn empty_ends(alloc: Global, many: usize) -> Result<Vec<usize>, Memory>
    ensures { IfOk result (λ ends. length ends.items ≡ many) }
{
    let mut ends = Vec::with_capacity(alloc, many)?;
    for _ in 0..many {
        ends.push(0)?;
    }
    Ok(ends)
}

// Fills the cells from a place on with what the chain rules make of a base row.
#[inline(always)]
fn fill_cells<L: Ledger>(
    cells: &mut [Cell],
    start: usize,
    base: &BaseRow,
    queue: &mut Queue,
    steps: &mut Steps<L>,
)
    requires within { start + length base.now.cells.now ≤ length cells.old }
    requires wide { length base.now.tables.now.nonterminals ≤ length base.now.cells.now }
    requires narrow { length base.now.cells.now < 2 ^ 32 - 1 }
    requires idle { IsIdle (length base.now.cells.now) queue.old }
    requires named { (n : ℕ) (c : CellValue) → CellAt (row_of base.now.cells.now) n c → n < length base.now.tables.now.nonterminals }
    requires short { (n : ℕ) (c : CellValue) → CellAt (row_of base.now.cells.now) n c → c.count + length base.now.cells.now < 2 ^ 32 }
    requires cheap { IsCheap (row_of base.now.cells.now) }
    ensures filled { (n : ℕ) × CellsFilled base.now.tables.now base.now.constant base.now.cells.now start cells.old cells.new n × (steps.new ≡ steps.old + n) }
    ensures idle { IsIdle (length base.now.cells.now) queue.new }
{
    let row = &mut cells[start..start + base.cells.len()];
    fill_from_base(base.tables, base.constant, base.cells, row, queue, steps);
}

impl Board {
    /// Room for so many nodes and nonterminals.
    pub(crate) fn reserve(alloc: Global, nodes: usize, nonterminals: usize) -> Result<Board, Memory>
        requires { nodes * nonterminals < 2 ^ 32 - 1 }
        ensures { IfOk result (λ b. HasRoom b nodes nonterminals) }
    {
        let cells = empty_cells(alloc, nodes * nonterminals)?;
        let ends = empty_ends(alloc, nodes)?;
        Ok(Board {
            width: nonterminals,
            ends,
            cells,
        })
    }

    /// How many nodes there is room for.
    pub(crate) fn nodes(&self) -> usize
        ensures { result ≡ room self.now }
    {
        self.ends.len()
    }

    /// How many cells a row has.
    pub(crate) fn width(&self) -> usize
        ensures { result ≡ self.now.nonterminals }
    {
        self.width
    }

    /// The cell of a nonterminal at a place, none where it has no derivation there, or there is no
    /// such place.
    pub(crate) fn cell(&self, at: usize, n: usize) -> Option<Cell>
        ensures { result ≡ cell self.now.rows at n }
    {
        if at >= self.ends.len() || n >= self.width {
            return None;
        }
        self.cells[at * self.width + n].seen()
    }

    /// The rule's number of a nonterminal's cell at a place, where it has a derivation.
    pub(crate) fn rule(&self, at: usize, n: usize) -> u16
        requires { cell self.now.rows at n ≢ None }
        ensures { (c : CellValue) → cell self.now.rows at n ≡ Some c → result ≡ c.rule }
    {
        self.cells[at * self.width + n].rule
    }

    /// The place after the rows of the subtree at a place.
    pub(crate) fn end(&self, at: usize) -> usize
        requires { at < length self.now.rows }
        ensures { result ≡ end_of (slice_get self.now.rows at) }
    {
        self.ends[at]
    }

    /// Puts a row at a place: what the chain rules make of a base row. A step is one chain or rule
    /// that is tried on a cell.
    #[inline(always)]
    pub(crate) fn fill<L: Ledger>(
        &mut self,
        at: usize,
        end: usize,
        base: &BaseRow,
        queue: &mut Queue,
        steps: &mut Steps<L>,
    )
        requires within { at < length self.old.rows }
        requires as_wide { length base.now.cells.now ≡ self.old.nonterminals }
        requires wide { length base.now.tables.now.nonterminals ≤ length base.now.cells.now }
        requires narrow { length base.now.cells.now < 2 ^ 32 - 1 }
        requires idle { IsIdle (length base.now.cells.now) queue.old }
        requires named { (n : ℕ) (c : CellValue) → CellAt (row_of base.now.cells.now) n c → n < length base.now.tables.now.nonterminals }
        requires short { (n : ℕ) (c : CellValue) → CellAt (row_of base.now.cells.now) n c → c.count + length base.now.cells.now < 2 ^ 32 }
        requires cheap { IsCheap (row_of base.now.cells.now) }
        ensures filled { (n : ℕ) × RowFilled base.now.tables.now base.now.constant (row_of base.now.cells.now) at end self.old.rows self.new.rows n × (steps.new ≡ steps.old + n) }
        ensures width { self.new.nonterminals ≡ self.old.nonterminals }
        ensures idle { IsIdle (length base.now.cells.now) queue.new }
    {
        fill_cells(&mut self.cells, at * self.width, base, queue, steps);
        self.ends[at] = end;
    }
}
