//! The rows of the meaning of forests on a machine's numbers: what an operator makes of words is what a machine computes of their numbers.
#![tactic(auto)]

mod laws;

pub use laws::{
    bits_are_so, comparisons_are_so, data_are_bytes, numbers_are_so, pointers_are_so, rows_are_so,
};
