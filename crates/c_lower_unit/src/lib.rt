//! The lowering of checked units, exactly as the lowering's definition has it, within its limits.
#![tactic(auto)]

mod functions;
mod tables;
mod unit;

pub use unit::lower_unit;
