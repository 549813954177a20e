//! Forests of operator trees, and lowered units of them: what a function computes, below its language and
//! above any machine.
#![tactic(auto)]

mod forest;
mod frame;
mod lowered;
mod op;
mod operands;
mod operator;
mod suffix;
mod sym;
mod tree;

pub use forest::Forest;
pub use frame::{Frame, Slot};
pub use lowered::{Datum, Lowered, LoweredFunction, LoweredObject};
pub use op::Op;
pub use operands::Operands;
pub use operator::Operator;
pub use suffix::Suffix;
pub use sym::Sym;
pub use tree::Tree;
