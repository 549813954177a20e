//! C's operations on numbers, and the operators of forests that stand for them.
#![tactic(auto)]

mod laws;

pub use laws::{
    fields_agree, numbers_agree, operators_agree, operators_stay, scalars_agree, templates_fit,
    tests_agree,
};
