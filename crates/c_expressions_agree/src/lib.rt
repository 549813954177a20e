//! What the lowering of any checked expression keeps, as a value and as a test.
#![tactic(auto)]

mod laws;

pub use laws::expressions_agree;
