//! What the lowering of straight expressions keeps: the run of a block comes to what C's evaluation comes to.
#![tactic(auto)]

mod laws;

pub use laws::{
    blocks_come_to_be, operands_wait, roots_store, straight_expressions_agree, templates_answer,
    values_are_placed,
};
