//! What the lowering of calls keeps: the run of a body comes behind a call as C's call comes out.
#![tactic(auto)]

mod laws;

pub use laws::{argument_words_are_passed, call_roots_are_made, calls_are_lowered, calls_come};
