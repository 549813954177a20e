//! What stands for what: values, bytes and objects of C in a run of forests.
#![tactic(auto)]

mod laws;

pub use laws::{bytes_are_read, ranges_may_grow};
