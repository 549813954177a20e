//! The one call that does all the work of the program.
#![tactic(auto)]

mod calling;
mod report;
mod work;

pub use calling::top;
pub use outcomes::Status;
