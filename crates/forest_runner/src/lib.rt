//! A plain runner of lowered units: the roots of each forest in order, each operator by its row, over a flat memory of
//! bytes. It serves to try what the lowering makes: where a run of the forests has a meaning it does the same.
#![tactic(auto)]

mod data;
mod halt;
mod machine;
mod memory;
mod names;
mod operations;
mod outcome;
mod trees;

pub use machine::run;
pub use outcome::{End, Outcome};
