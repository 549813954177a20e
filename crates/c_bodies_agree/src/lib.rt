//! The statements of a checked unit's functions agree with their lowering, and so does the unit.
#![tactic(auto)]

mod laws;

pub use laws::{checked_units_agree, each_lowered_unit_agrees, parts_of_bodies_agree};
