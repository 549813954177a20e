//! What slots of the frame keep that the lowering takes: values that wait while blocks end, truth values, and results of calls.
#![tactic(auto)]

mod laws;

pub use laws::{operands_are_held, slots_are_read, slots_are_stored, slots_are_taken, slots_stay};
