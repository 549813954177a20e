//! The options of `simrun`: the order of bytes, the bound on steps and the size of the stack.
ghost use Rattle.std.specs.Prelude.{◌≤◌};

use lcc_base::Order;

/// How `simrun` runs a program.
#[derive(Clone, Copy, Debug, PartialEq, Eq)]
pub struct RunOptions {
    /// The order of bytes in memory: big for the target `mipseb`, little for `mipsel`.
    pub order: Order,
    /// How many steps a run has at most.
    pub steps: u32,
    /// How many bytes the stack has.
    pub stack: u32,
    ghost some: { 1 ≤ steps },
    ghost least: { 4096 ≤ stack },
    ghost most: { stack ≤ 16777216 },
}
