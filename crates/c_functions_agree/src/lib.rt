//! Each function of a lowered unit agrees with C's, where the parts of its statements do.
#![tactic(auto)]

mod laws;

pub use laws::{calls_return, units_agree};
