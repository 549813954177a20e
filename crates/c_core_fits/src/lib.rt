//! What is typed, made whole, keeps what a checked unit promises (C89 3.7).
#![tactic(auto)]

mod laws;

pub use laws::typed_units_are_units;
