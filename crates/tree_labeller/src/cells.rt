//! The memory of the labeller, reserved once and used again for each tree.
ghost use Rattle.std.specs.Prelude.{◌≡◌, ◌*◌, ◌-◌, ◌^◌, ◌<◌, IfOk};
ghost use Rattle.tree_labeller.specs.MCells.{MCells, HasRoom, room};

use crate::board::{Board, empty_cells};
use lburg_tables::Cell;
use lcc_base::Memory;
use place_queue::Queue;
use std::alloc::Global;
use std::marker::Model;

/// What the filling of rows works on.
#[derive(Debug, Drop)]
pub(crate) struct Scratch {
    /// What the rules make that are no chain rules.
    pub(crate) base: Vec<Cell>,
    /// The nonterminals whose chain rules are still to be tried, where some have ranges.
    pub(crate) queue: Queue,
}

/// Room for the labels of a tree, and the labels of the last one. Cells serve every tree with at
/// most so many nodes, and all tables with at most so many nonterminals.
#[derive(Debug, Drop)]
pub struct Cells {
    pub(crate) board: Board,
    pub(crate) scratch: Scratch,
}

impl Model for Cells {
    ghost use Rattle.tree_labeller.specs.MCells.{MCells};
    ghost use Rattle.tree_labeller.specs.IsCells.{IsCells};

    ghost Value = { MCells };

    ghost view = { λ c. c.board };

    ghost invariant = { λ c. IsCells c.board c.scratch.base.items c.scratch.queue };
}

impl Cells {
    /// Room for so many nodes and nonterminals, few enough that every sum of costs or counts fits
    /// its number. `Memory` comes where an allocation is refused, or at 2 ^ 32 - 1 nonterminals or
    /// more, which only room for no nodes allows.
    pub fn reserve(alloc: Global, nodes: usize, nonterminals: usize) -> Result<Cells, Memory>
        requires { nodes * nonterminals < 2 ^ 32 - 1 }
        ensures { IfOk result (λ c. HasRoom c nodes nonterminals) }
    {
        if nonterminals >= u32::MAX as usize {
            return Err(Memory);
        }
        let board = Board::reserve(alloc, nodes, nonterminals)?;
        let scratch = Scratch {
            base: empty_cells(alloc, nonterminals)?,
            queue: Queue::reserve(alloc, nonterminals)?,
        };
        Ok(Cells { board, scratch })
    }

    /// How many nodes there is room for.
    pub fn nodes(&self) -> usize
        ensures { result ≡ room self.now }
    {
        self.board.nodes()
    }

    /// How many nonterminals there is room for.
    pub fn nonterminals(&self) -> usize
        ensures { result ≡ self.now.nonterminals }
    {
        self.board.width()
    }
}
