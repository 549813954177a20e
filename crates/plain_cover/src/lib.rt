//! The best cover of a tree, found by trying every derivation.
#![tactic(auto)]

mod plain;

pub use plain::{Found, plain_best};
