//! What the lowering of expressions keeps whose parts are of any kind, so that blocks may end while an operand waits.
#![tactic(auto)]

mod laws;

pub use laws::{dropped_parts_agree, plain_expressions_agree};
