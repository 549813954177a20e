//! Texts of assembly: the programs that they make, the lines of which they are printed, and what a machine answers.
#![tactic(auto)]

mod adding;
mod addresses;
mod asm_fault;
mod assembly;
mod datum;
mod finishing;
mod isa;
mod labels;
mod laws;
mod line_adding;
mod lines;
mod linking;
mod name_table;
mod naming;
mod place;
mod printing;
mod program;
mod reading;
mod running;
mod uses;

pub use addresses::{CODE_START, DATA_START, END_AT, EXIT_AT, GETCHAR_AT, PUTCHAR_AT, STACK_TOP};
pub use asm_fault::AsmFault;
pub use asm_lines::{
    Address, BinaryOp, Condition, Instruction, Item, LoadOp, Register, Statement, StoreOp, Target,
    UnaryOp, Value,
};
pub use isa::Isa;
pub use laws::{one_fault, one_program};
pub use lines::Lines;
pub use linking::Linked;
pub use printing::print;
pub use program::Program;
pub use reading::read;
pub use running::{Input, Step, StuckCause};
