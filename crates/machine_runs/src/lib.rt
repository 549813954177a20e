//! Runs of machines: what a machine has to offer for one, and the run of so many steps, whose output is gathered and
//! handed over in pieces.
#![tactic(auto)]

mod gathered;
mod running;
mod turning;

pub use running::run_machine;
pub use turning::{Turn, Turning};
