//! What it means that entries of a block stand for an expression of C.
#![tactic(auto)]

mod laws;

pub use laws::nodes_are_lowered;
