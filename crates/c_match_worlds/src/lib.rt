//! When worlds of forests stand for worlds of C, and what keeps them so.
#![tactic(auto)]

mod laws;

pub use laws::{calls_keep, events_keep, runs_begin_alike, stores_keep};
