//! The target MIPS: a lowered unit as lines of assembly.
#![tactic(auto)]

mod function_code;
mod generating;
mod layout;
mod ruled;

pub use generating::generate;
pub use layout::Layout;
pub use ruled::has_rules;
