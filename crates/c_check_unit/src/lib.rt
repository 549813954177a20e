//! Units of C, checked (C89 3.7): external declarations in order, the end of the unit, and the unit made whole.
#![tactic(auto)]

mod checking;
mod externals;
mod links;
mod made;
mod texts;
mod whole;

pub use checking::check_unit;
