//! Types of C (C89 3.1.2.5): a table that holds each once, their sizes and the places of members,
//! which are compatible, their composites, and the conversions of arithmetic.
#![tactic(auto)]

mod compatible;
mod composite;
mod constness;
mod conversions;
mod definition;
mod extent;
mod form_key;
mod laws;
mod layout;
mod notes;
mod qualifiers;
mod room;
mod type_fault;
mod type_form;
mod type_table;

pub use extent::Extent;
pub use laws::{compatible_types_are_mutual, composites_are_compatible};
pub use qualifiers::Qualifiers;
pub use type_fault::TypeFault;
pub use type_form::{Enumerator, Member, MemberPlace, TypeForm, TypeId};
pub use type_table::TypeTable;
