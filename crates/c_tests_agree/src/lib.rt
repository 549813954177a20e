//! What the lowering of tests keeps, and of what is made of tests: the run of a body comes behind a test, or to its label, as C's
//! test comes out.
#![tactic(auto)]

mod laws;

pub use laws::{
    branches_are_taken, comparisons_are_tested, connectives_are_tested, scalars_are_tested,
};
