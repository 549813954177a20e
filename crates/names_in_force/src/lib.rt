//! The names in force while C is read, by scope, and which of them are typedef names.
#![tactic(auto)]

mod bindings;
mod bound;
mod names;

pub use names::Names;
