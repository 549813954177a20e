//! What the pieces of forests that stand for a statement keep: from each state in which the statement may be entered, the run
//! comes to what the statement of C comes to. And how statements keep it where their parts do.
#![tactic(auto)]

mod laws;

pub use laws::{
    choices_are_lowered, expressions_are_lowered, jumps_are_lowered, labels_lead,
    loops_are_lowered, sequences_are_lowered,
};
