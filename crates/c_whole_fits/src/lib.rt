//! What is typed fits when its unit is made whole: its names stand for what is there, and calls name their copies.
#![tactic(auto)]

mod laws;

pub use laws::{
    placed_expressions_fit, symbols_are_meant, whole_expressions_fit, whole_initialisers_fit,
    whole_statements_fit,
};
