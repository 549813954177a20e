//! Values of C's expressions (C89 3.2, 3.3): what types and values they have, what may be assigned, compared and
//! combined, constants, and the checked forms that conversions, operators, changes and arguments make of them.
#![tactic(auto)]

pub mod arithmetic;
pub mod assigning;
pub mod basic_places;
pub mod changes;
mod check_fault;
pub mod comparisons;
mod constants;
pub mod forming;
pub mod kinds;
mod laws;
pub mod nulls;
pub mod operand_tests;
pub mod passing;
pub mod places;
pub mod sums;
mod value_type;
pub mod values;

pub use check_fault::CheckFault;
pub use constants::{constant_value, fold};
pub use laws::{constants_are_typed, integer_types_are_signed};
pub use value_type::{QualifiedType, ValueType};
