//! The labelling of trees: for each node and nonterminal the least cost of a derivation, and its rule.
#![tactic(auto)]

mod board;
mod cells;
mod labeller;
mod labels;
mod matching;
mod merging;
mod sizes;
mod starting;

pub use board::Board;
pub use cells::Cells;
pub use labeller::label;
pub use labels::{Choice, Labels, labels_in};
pub use lburg_tables::Cell;
pub use sizes::{most_nodes, node_count};
