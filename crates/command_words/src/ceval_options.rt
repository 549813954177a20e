//! The options of `ceval`: the order of bytes and the bound on turns.
ghost use Rattle.std.specs.Prelude.{◌≤◌};

use lcc_base::Order;

/// How `ceval` runs a program.
#[derive(Clone, Copy, Debug, PartialEq, Eq)]
pub struct CevalOptions {
    /// The order of bytes in memory.
    pub order: Order,
    /// How many turns the run has at most.
    pub turns: u32,
    ghost some: { 1 ≤ turns },
}
