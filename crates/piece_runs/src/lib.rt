//! How far the run of a function's body is, while blocks of dags become the pieces of its forest.
#![tactic(auto)]

mod laws;

pub use laws::{blocks_end, blocks_go_on_to, formed_blocks_are_split, runs_begin};
