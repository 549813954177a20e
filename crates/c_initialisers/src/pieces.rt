//! Of what checkers of units are made, beside whole initialisers.

pub use crate::addresses::is_constant;
