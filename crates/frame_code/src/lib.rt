//! The instructions of generated code, one type for every target: what they read, write and do.
#![tactic(auto)]

mod arithmetic;
mod instr;
mod operands;

pub use arithmetic::Arithmetic;
pub use instr::{Instr, Source};
pub use operands::{operand_of, renamed};
