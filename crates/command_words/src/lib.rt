//! Which command the words behind the program's name ask for, with its options.
#![tactic(auto)]

mod ceval_options;
mod ceval_words;
mod number_words;
mod option_words;
mod run_options;
mod run_words;
mod words;

pub use ceval_options::CevalOptions;
pub use run_options::RunOptions;
pub use words::{Command, command_of};
