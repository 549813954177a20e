//! The work of `simrun`: runs of programs of assembly.
#![tactic(auto)]

mod laws;
mod mips;
mod simulate;

pub use laws::simrun_laws;
pub use simulate::run_input;
