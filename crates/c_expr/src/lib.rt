//! The parser of C: a source's tokens, the names in force by scope, the readers of expressions, type
//! names, specifiers and declarators, and the fault that was answered.
#![tactic(auto)]

mod declarators;
mod enumerations;
mod expr_nodes;
mod expressions;
mod found;
mod heads;
mod link;
mod links;
mod names_met;
mod parameters;
mod parser;
mod questions;
mod records;
mod specifiers;
mod stop;
mod suffixes;
mod syntax_fault;
mod tokens;
mod traits_of_trees;
mod type_names;
mod type_nodes;
mod words;

pub use parser::Parser;
pub use syntax_fault::SyntaxFault;
pub use traits_of_trees::{declared_name, has_typedef};
