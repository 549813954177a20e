//! How many nodes and temporaries the trees of a block have.
#![tactic(auto)]

mod laws;

pub use laws::{split_blocks_are_small, weights_change_little};
