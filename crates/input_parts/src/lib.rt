//! Inputs of two parts: a text, and behind a line `%%` what the text's program reads.
#![tactic(auto)]

mod laws;
mod parting;

pub use laws::one_parting;
pub use parting::parted;
