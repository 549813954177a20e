//! Readers of C's statements and units.
#![tactic(auto)]

mod conditions;
mod exact;
mod externals;
mod nodes;
mod statements;
mod units;
mod words;

pub use statements::statement;
pub use units::unit;
