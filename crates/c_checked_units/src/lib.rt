//! What each checked unit keeps beside what its rows say, as its lowering and that lowering's agreement with C need it.
#![tactic(auto)]

mod cores;
mod laws;

pub use cores::core_is_checked;
pub use laws::{expressions_are_modest, jumps_stay_in_bodies, texts_are_short, units_are_checked};
