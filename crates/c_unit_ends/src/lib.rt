//! The end of a unit of C (C89 3.7.2, 3.4, 3.7): tentative definitions, what symbols stand for, address constants over
//! the whole unit, and what is named but not defined.
#![tactic(auto)]

mod address_constants;
mod built_in_types;
mod called;
mod copied_kinds;
mod links;
mod main_function;
mod standing;
mod tentative;
mod undefined;
mod uses;
mod whole_types;

pub use address_constants::constants;
pub use links::linked_symbols;
pub use standing::standings;
pub use tentative::define_tentative;
pub use undefined::names;
