//! Names of local objects in typed functions: each is a local of its function, of a compatible type (C89 3.7.1).
#![tactic(auto)]

mod laws;

pub use laws::locals_fit;
