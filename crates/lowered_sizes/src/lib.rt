//! How large lowered expressions are: labels, slots and nodes against how many expressions stand in them.
#![tactic(auto)]

mod laws;

pub use laws::{frames_stay_low, labels_are_few, slots_are_few};
