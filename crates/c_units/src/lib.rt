//! What units of C are: the typing of statements, functions' definitions and whole units.
#![tactic(auto)]

mod laws;

pub use laws::{typing_units_is_a_function, typing_units_is_decided};
