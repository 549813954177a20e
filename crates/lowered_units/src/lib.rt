//! The lowered unit of a checked one, as a definition: its functions' bodies, the data of its objects and texts, the tables of its switches,
//! and the names of all.
#![tactic(auto)]

mod laws;

pub use laws::units_stand;
