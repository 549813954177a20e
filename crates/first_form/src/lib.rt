//! The first form of C: its programs, read exactly, and what each does.
#![tactic(auto)]

mod class;
mod evaluation;
mod expression;
mod expression_reader;
mod first_fault;
mod first_program;
mod lexing;
mod program_reader;
mod signs;

pub use evaluation::value;
pub use expression::{Expression, Operator};
pub use first_fault::FirstFault;
pub use first_program::FirstProgram;
pub use program_reader::{one_program, read};
