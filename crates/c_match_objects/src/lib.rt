//! What accesses and pointers of forests do where those of C that they stand for are defined.
#![tactic(auto)]

mod laws;

pub use laws::{lifetimes_go, pointers_go, reads_go, stores_go};
