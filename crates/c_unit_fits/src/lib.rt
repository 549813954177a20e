//! What is typed of a unit fits: statements and functions keep what a checked unit promises of them.
#![tactic(auto)]

mod laws;

pub use laws::typed_bodies_have_their_shape;
