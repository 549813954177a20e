//! What it means that a function of forests agrees with one of C, and that one direction of it follows from the other.
#![tactic(auto)]

mod laws;

pub use laws::{agreeing_is_told, coming_is_ahead, forests_end_once, results_stand};
