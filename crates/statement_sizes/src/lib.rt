//! How large lowered statements and functions are: labels and slots against how many statements and expressions stand in them.
#![tactic(auto)]

mod laws;

pub use laws::{frames_stay_low, labels_are_few, slots_are_few};
