//! The lowering of checked statements and of functions' bodies, exactly as the lowering's definition has it.
#![tactic(auto)]

mod bodies;
mod choices;
mod initialising;
mod loops;
mod simple;
mod statements;

pub use bodies::lower_body;
