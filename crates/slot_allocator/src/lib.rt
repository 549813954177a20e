//! Spill slots for virtual registers, for every target.
#![tactic(auto)]

mod slots;

pub use slots::give_slots;
