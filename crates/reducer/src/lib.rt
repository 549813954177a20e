//! The best derivation of a labelled tree: its cost, a walk over its rules, and the derivation as a value.
#![tactic(auto)]

mod cost;
mod derivations;
mod reducer;

pub use cost::{Cost, best};
pub use derivations::{best_derivation, best_derivations};
pub use reducer::{Visitor, reduce};
