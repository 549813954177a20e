//! The steps of a function's lowering: nodes and roots of the open block by their templates, finished blocks, labels, and new
//! slots of the frame. Each is exactly the step of the lowering's definition.
#![tactic(auto)]

mod accesses;
mod branches;
mod fields;
mod numbers;
mod open_block;
mod operand;
mod pointers;
mod slots;
mod state;
mod words;

pub use branches::Jump;
pub use open_block::OpenBlock;
pub use operand::{Operand, Source, Stem};
pub use state::State;
