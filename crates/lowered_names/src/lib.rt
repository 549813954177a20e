//! The names of a lowered unit: those of a checked unit's functions and objects, and those of its texts, of built-in functions and of
//! tables, of which none is another's (C89 3.1.2, 3.1.2.2).
#![tactic(auto)]

mod naming;
mod own_names;

pub use naming::unit_names;
