//! The blocks and labels of lowered expressions.
#![tactic(auto)]

mod laws;

pub use laws::blocks_are_known;
