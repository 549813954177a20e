//! The lowering of checked expressions to blocks of dags, as a function of the logic: which nodes and roots each kind of
//! expression becomes, and where a block ends.
#![tactic(auto)]

mod laws;

pub use laws::{blocks_answer, lowering_goes_on, values_have_nodes};
