//! The evaluator of C programs: what a checked unit does, with an explicit stack.
#![tactic(auto)]

mod arriving;
mod calls;
mod ending;
mod evaluating;
mod expressions;
mod focus;
mod form;
mod frame;
mod how;
mod kept;
mod labels;
mod loops;
mod machine;
mod stack;
mod statements;
mod turns;

pub use evaluating::{Outcome, evaluate};
