//! What makes the functions and objects of a unit whole: string literals and symbols by their places, and places for
//! the copies of structures that calls pass and give (C89 3.1.4, 3.7).
#![tactic(auto)]

mod copies;
mod functions;
mod literals;
mod names;
mod numbers;
mod statements;
mod static_objects;
mod texts;

pub use functions::whole_function;
pub use literals::{note_function, note_object};
pub use numbers::is_numbered;
pub use static_objects::whole_object;
pub use texts::Texts;
