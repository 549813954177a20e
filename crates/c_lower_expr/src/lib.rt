//! The lowering of checked expressions: to operands of what stands behind them, to jumps, and to nodes of the open block.
#![tactic(auto)]

mod calls;
mod lowering;
mod marks;
mod tests;
mod values;
mod ways;
mod whole;

pub use lowering::{Lowering, lower_expr};
pub use whole::{lower_node, lower_test, lower_value};
