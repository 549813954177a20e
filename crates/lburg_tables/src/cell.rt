//! The cells of a labelling: the best derivation of each nonterminal at a node, and their order.
ghost use Rattle.std.specs.Prelude.{◌≡◌, ◌↔◌, ◌<◌, ◌≤◌, ℕ, IsTrue, Some, length};
ghost use Rattle.lburg_tables.specs.Row.{CellAt, Leq3, Beats, Offered};
ghost use Rattle.lburg_tables.specs.RowOf.{seen, key_of, row_of};
ghost use Rattle.lburg_tables.specs.declared.cell.Cell.{Cell as Cells};

use place_queue::Key;

/// The least cost and count of a nonterminal's derivations at a node, and the number, from 1, of the
/// rule at the root of the best one. The number 0 says that there is no derivation.
#[derive(Clone, Copy, Debug, Drop)]
pub struct Cell {
    pub cost: u64,
    pub count: u32,
    pub rule: u16,
}

impl Cell {
    /// A cell without a derivation. Its cost is the greatest, so that a cell that is offered in its
    /// place is mostly found to be less by the costs alone.
    pub const NONE: Cell = Cell {
        cost: u64::MAX,
        count: 0,
        rule: 0,
    };

    /// Whether it has a derivation, and costs less than this.
    pub fn is_below(&self, cost: u64) -> bool
        ensures { IsTrue result ↔ ((self.now.cost < cost) × (1 ≤ self.now.rule)) }
    {
        self.cost < cost && self.rule != 0
    }

    /// Whether it is no greater, by cost, then count, then rule number.
    pub fn is_at_most(&self, other: &Cell) -> bool
        ensures { IsTrue result ↔ Leq3 self.now.cost self.now.count self.now.rule other.now.cost other.now.count other.now.rule }
    {
        if self.cost != other.cost {
            self.cost < other.cost
        } else if self.count != other.count {
            self.count < other.count
        } else {
            self.rule <= other.rule
        }
    }

    /// The cell, or none where it has no derivation.
    pub fn seen(self) -> Option<Cell>
        ensures { result ≡ seen self }
    {
        if self.rule == 0 { None } else { Some(self) }
    }

    /// Its cost and count.
    pub fn key(&self) -> Key
        ensures { Some result ≡ key_of (Some self.now) }
    {
        Key {
            cost: self.cost,
            count: self.count,
        }
    }
}

/// Stores a new cell of a nonterminal where it is less than the old one by cost, then count, then
/// rule number. Tells whether it did.
pub fn offer(row: &mut [Cell], n: usize, new: Cell) -> bool
    requires within { n < length row.old }
    requires some { 1 ≤ new.rule }
    ensures offered { Offered (row_of row.old) n new (row_of row.new) }
    ensures stored { IsTrue result ↔ Beats (row_of row.old) n new }
{
    let old = &row[n];
    // Mostly the costs tell: an empty cell's is the greatest.
    if old.cost <= new.cost && old.is_at_most(&new) && old.rule != 0 {
        return false;
    }
    row[n] = new;
    true
}

/// Leaves no cell a derivation.
pub fn clear_row(row: &mut [Cell])
    ensures { (n : ℕ) (c : Cells) → CellAt (row_of row.new) n c → ⊥ }
{
    for n in 0..row.len() {
        row[n] = Cell::NONE;
    }
}
