//! Readers of C's initialisers and declarations over a parser, and the steps that readers of statements
//! and units need besides.
#![tactic(auto)]

mod declarations;
mod initialisers;
mod next;
mod nodes;
mod parts;
mod steps;

pub use declarations::{
    declaration, declaration_to, declarations_to, inits_behind, old_parameters, old_parameters_to,
};
pub use initialisers::initialiser;
pub use next::{begins_specifier, first, is_label, is_sign, line_at};
pub use nodes::declared;
pub use parts::{low_constant, low_expression, low_specifiers, whole_declarator};
pub use steps::{
    boxed, close_scope, expect, keep, open_scope, refuse, reopen_scope, take, take_name, takes,
    takes_keyword,
};
