//! Objects that get their first values (C89 3.5.7): place by place, and those of the whole program before it starts.
#![tactic(auto)]

mod filling;
mod places;
mod starting;
mod strings;

pub use filling::{are_plain, fill};
pub use places::{fill_place, make_zero};
pub use starting::start;
