//! Calls of lowered functions begin as C's do: locals have places in the frame, and the run stands before the body's first
//! statement.
#![tactic(auto)]

mod laws;

pub use laws::{calls_enter, calls_have_frames};
