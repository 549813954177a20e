//! How many nodes and temporaries the lowering of an expression adds at most: a bound of what is lowered, and how much each step and each
//! expression adds to it.
#![tactic(auto)]

mod laws;

pub use laws::{expressions_are_small, weights_are_bounds};
