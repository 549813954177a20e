//! Rules by their actions, for every target: the instructions that each action adds, and what it hands up.
#![tactic(auto)]

mod action;
mod expansion;
mod part;

pub use action::Action;
pub use expansion::{instr_by, part_by};
pub use part::Part;
