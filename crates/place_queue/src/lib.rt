//! A queue of places by their keys: what waits with the least key comes first.
#![tactic(auto)]

mod heap;
mod key;
mod queue;

pub use key::Key;
pub use queue::Queue;
