//! Definitions of functions, checked (C89 3.7.1): the declarator, the parameters, the body in their scope, and then
//! the definition.
#![tactic(auto)]

mod definition;
mod function_definitions;
mod heading;
mod listed_names;
mod name_lists;
mod old_declarations;
mod old_parameters;
mod own_step;
mod parameters;
mod result_types;

pub use function_definitions::{Defines, function};
