//! The lowering of returns of structures and of initialisers agrees with C, where that of their expressions does.
#![tactic(auto)]

mod laws;

pub use laws::{initialisers_agree, structures_are_returned};
