//! What C programs do: what expressions, statements and calls come to, and runs of whole programs.
#![tactic(auto)]

mod laws;

pub use laws::{
    calls_stand_alone, locals_are_objects, runs_go_further, runs_stay_sound, traces_grow,
    turns_are_repetitions, turns_fall,
};
