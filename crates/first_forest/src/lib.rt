//! What a program of the first form of C is as a forest of operator trees.
#![tactic(auto)]

mod lowering;
mod statements;
mod trees;

pub use lowering::lower;
