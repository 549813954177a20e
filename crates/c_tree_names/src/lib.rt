//! The names of C's trees (C89 3.1.2): those of the unit that a source denotes are of letters, digits and `_`.
#![tactic(auto)]

mod laws;

pub use laws::denoted_units_are_grammatical;
