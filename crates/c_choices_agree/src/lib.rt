//! What the lowering of expressions keeps that choose: truths as numbers, and conditionals.
#![tactic(auto)]

mod laws;

pub use laws::{conditionals_are_lowered, truths_are_lowered};
