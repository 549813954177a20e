//! What the agreement of a unit with C asks of its lowering holds of each lowered unit of a checked one.
#![tactic(auto)]

mod laws;

pub use laws::{
    blocks_are_split, built_ins_are_provided, functions_are_fair, names_are_numbered,
    units_are_lowerings,
};
