//! What a reader of C gives, from expressions up to units, by the limit on height: that this is each
//! piece of the grammar, and nothing else, that what is left behind a piece is the end of what was
//! left before it, and that tokens denote at most one unit.
#![tactic(auto)]

mod laws;
mod pieces;

pub use laws::{one_unit, pieces_are_fronts, readers_are_exact, units_are_exact};
pub use pieces::{one_declaration, one_declarator, one_expression, one_statement, one_type};
