//! Laws of blocks of dags for what stands above them: which runs a block has as it grows, which values its nodes have, and
//! what its trees are.
#![tactic(auto)]

mod laws;
mod splits;

pub use laws::{blocks_go_on, rooms_are_needed, runs_go_on, split_trees_fit, values_hold};
pub use splits::split_trees_mean;
