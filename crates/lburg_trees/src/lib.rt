//! The trees of a description's tail, or its first fault with its line.
#![tactic(auto)]

mod known;
mod name_table;
mod plain_tree;
mod row;
mod stop;
mod tail;
mod tree_fault;
mod tree_reader;
mod tree_taker;

pub use row::Row;
pub use tail::{read_trees, take_trees};
pub use tree_fault::TreeFault;
pub use tree_taker::TreeTaker;
