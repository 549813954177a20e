//! The work of `lburg`: covers of trees, and the tables of a description.
#![tactic(auto)]

mod cover;
mod laws;
mod printer;
mod tables;
mod text_fault;

pub use cover::cover_input;
pub use laws::{cover_laws, tables_laws};
pub use tables::tables_input;
