//! The lowering of checked statements and of functions' bodies to pieces of forests, as a function of the logic: which blocks,
//! labels and tables each kind of statement becomes.
#![tactic(auto)]

mod laws;

pub use laws::{frames_are_kept, searches_choose, statements_add, statements_leave_blocks};
