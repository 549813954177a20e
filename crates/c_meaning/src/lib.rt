//! What C means: checked programs, and which programs are right. So far the checked form of a program, and the
//! typing of its expressions, types and declarations.
#![tactic(auto)]

mod built_in;
mod core_expr;
mod core_stmt;
mod core_unit;
mod filled_place;
mod laws;
mod literal_text;

pub use built_in::BuiltIn;
pub use core_expr::{Change, Conversion, CoreExpr, CoreKind};
pub use core_stmt::{CoreCase, CoreForHead, CoreStmt};
pub use core_unit::{Core, CoreFunction, CoreObject};
pub use filled_place::FilledPlace;
pub use laws::{
    copies_have_locals, declaring_is_a_function, declaring_is_decided, typing_is_a_function,
    typing_is_decided,
};
pub use literal_text::LiteralText;
