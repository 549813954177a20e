//! The labels of lowered functions: each that is used stands in the pieces once, and none but
//! these is named.
#![tactic(auto)]

mod laws;

pub use laws::{labels_are_marked, labels_are_used};
