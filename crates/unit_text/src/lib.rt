//! The text of a unit: its functions in order, each with its name, which is seen from outside.
#![tactic(auto)]

mod unit_lines;

pub use unit_lines::{push_name, push_plain};
