//! How many nodes and temporaries the lowering of a statement and of a function's body adds at most.
#![tactic(auto)]

mod laws;

pub use laws::statements_are_small;
