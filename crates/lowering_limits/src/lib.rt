//! The limits of the lowering: the bytes of a function's frame and of a unit's data, the statements and expressions of
//! a function, and which of them is the first that a unit passes.
//! Source: the profile of this compiler (counts of nodes, frames and data).
#![tactic(auto)]

mod bytes;
mod laws;
mod limits;
mod lower_fault;
mod nodes;
mod plus;

pub use laws::one_limit;
pub use limits::check_limits;
pub use lower_fault::LowerFault;
