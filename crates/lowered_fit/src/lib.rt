//! Blocks that are lowered fit their frames: each operator has the operands, the symbol and the constant that it needs.
#![tactic(auto)]

mod laws;

pub use laws::{blocks_fit, expressions_fit};
