//! Bit-fields of C in units of which some bits are known, as forests read and write them.
#![tactic(auto)]

mod laws;

pub use laws::fields_go;
