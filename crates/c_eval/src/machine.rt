//! The state of the evaluator: its stack, its world and the turns that are left.
use crate::stack::Stack;
use c_worlds::World;
use std::alloc::Global;

/// A run under way: what is left to do, what it acts on, and the turns that are left.
#[derive(Drop)]
pub struct Machine<'a> {
    pub alloc: Global,
    pub stack: Stack<'a>,
    pub world: World<'a>,
    pub turns: u64,
}
