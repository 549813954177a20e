//! Names with static storage in typed units: what is defined for them has a compatible type (C89 3.1.2.2, 3.7).
#![tactic(auto)]

mod laws;

pub use laws::symbols_fit;
