//! The work of `rcc`: the assembly of a program.
#![tactic(auto)]

mod input_fault;
mod laws;
mod rcc;

pub use laws::rcc_laws;
pub use rcc::compile_input;
