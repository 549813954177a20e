//! What typing C changes of what is known, step by step, and what typed names stand for (C89 3.1.2.1, 3.3.1).
#![tactic(auto)]

mod laws;

pub use laws::{typed_names_stand, typing_steps};
