//! Declarations of C, checked (C89 3.5): linkage and scopes, what is declared again, the types that names
//! have from then on, and the objects that are defined.
#![tactic(auto)]

mod counting;
mod declares;
mod defining;
mod fitting;
mod forming;
mod initialising;
mod kept_parameters;
mod linkage;
mod linked;
mod name_faults;
mod naming;
mod own_specifiers;
pub mod pieces;
mod public;
mod unlinked;
mod walk;
mod whole;
mod whole_faults;

pub use c_initialisers::{Filled, fill};
pub use declares::{Declares, DefinedObject, LinkedName};
pub use public::check_declaration;
