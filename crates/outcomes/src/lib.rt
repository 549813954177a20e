//! How a command's work ends, and what the program's status and report tell of it.
#![tactic(auto)]

mod fault_name;
mod outcome;
mod status;
mod writing;

pub use fault_name::FaultName;
pub use outcome::{End, Outcome, Refusal};
pub use status::Status;
pub use writing::write_text;
