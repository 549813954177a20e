//! Initialisers of C, checked (C89 3.5.7): which place of an object gets which expression, and which
//! expressions are constant enough for a static one.
#![tactic(auto)]

mod addresses;
mod entering;
mod filled;
mod finishing;
mod front;
mod kinds;
mod nodes;
mod opening;
mod parts;
pub mod pieces;
mod place;
mod placing;
mod public;
mod sizes;
mod stored;
mod storing;
mod texts;
mod waits;
mod walk;
mod whole;

pub use filled::Filled;
pub use public::{Initialised, fill, initialise};
