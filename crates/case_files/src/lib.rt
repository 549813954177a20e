//! What the programs that run stored cases share: the lines of a file, those that stand for bytes, why a file
//! can't be read, and the report of all files.
#![tactic(auto)]

mod bytes;
mod fault;
mod files;
mod reading;

pub use fault::{CaseFault, Refused};
pub use files::{CaseForm, Outcome, run_files};
pub use reading::{CaseReader, read_file};
