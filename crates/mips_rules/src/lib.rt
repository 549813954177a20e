//! The target MIPS: its instructions, the shipped description, and the code that each rule adds.
#![tactic(auto)]

mod mips;
mod mips_description;
mod mips_rules;
mod rule_line;
mod terminal_line;

pub use mips::Mips;
pub use mips_description::description;
pub use mips_rules::{MipsRules, rules};
