//! Expressions and declared types of C, checked (C89 3.3, 3.5.2 to 3.5.5): over scopes and a table of types, exactly as
//! typing has them, or the first fault.
#![tactic(auto)]

mod access;
mod assign;
mod binary;
mod callees;
mod calls;
mod conditional;
mod declarators;
mod declaring;
mod member_access;
mod member_list;
mod members;
mod names;
mod operand_values;
mod outline;
mod parameters;
mod parts;
pub mod pieces;
mod public;
mod specifiers;
mod step_types;
mod steps;
mod tags;
mod unary;
mod walk_declarators;
mod walk_expr;
mod walk_types;

pub use c_values::{CheckFault, fold};
pub use public::{check_expr, declared_type};
