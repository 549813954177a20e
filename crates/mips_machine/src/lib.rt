//! The MIPS machine: a loaded program, and its steps.
#![tactic(auto)]

mod acting;
mod built_ins;
mod decoded;
mod free_register;
mod load_fault;
mod loading;
mod machine;
mod memory;
mod operations;
mod processor;
mod turn;

pub use load_fault::LoadFault;
pub use loading::load;
pub use machine::Machine;
pub use turn::Turn;
