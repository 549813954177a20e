//! The work of `ceval`: runs of C programs.
#![tactic(auto)]

mod evaluation;
mod laws;
mod source_fault;

pub use evaluation::evaluate_input;
pub use laws::ceval_laws;
