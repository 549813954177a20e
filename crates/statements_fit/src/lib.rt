//! Statements are lowered to blocks that fit their frames.
#![tactic(auto)]

mod laws;

pub use laws::statements_fit;
