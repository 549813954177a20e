//! An arena: values that stay where they were put until they are given up together.
#![tactic(auto)]

mod arena;
mod chunks;
mod elements;

pub use arena::Arena;
