//! Runs of a generated program's machine, of any kind, against runs of forests.
#![tactic(auto)]

mod laws;

pub use laws::runs_agree;
