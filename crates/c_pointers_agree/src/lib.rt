//! C's operations on pointers, and the operators of forests that do the same over matching words.
#![tactic(auto)]

mod laws;

pub use laws::{
    calls_agree, comparisons_agree, moves_agree, objects_stay_short, own_objects_live, pointers_fit,
};
