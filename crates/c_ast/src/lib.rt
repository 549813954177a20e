//! C's syntax: the classes of tokens, how keywords and signs are spelled, and syntax trees.
#![tactic(auto)]

mod class;
mod expr;
pub mod keyword;
mod laws;
mod operator;
mod print_expr;
mod print_unit;
pub mod sign;
mod specifier;
mod spelled_by;
mod spelling;
mod statement;
mod token_text;
mod tree_height;
mod unit;
mod unit_height;
mod worked;

pub use class::{Class, IntKind};
pub use expr::{
    Declarator, DeclaratorCore, Enumerator, Expr, ExprForm, Member, MemberDeclarator, Parameter,
    Specifier, SpecifierForm, Specifiers, Suffix, SuffixForm, TypeName,
};
pub use keyword::{keyword_number, keyword_text};
pub use laws::marks_run;
pub use operator::{
    AssignOperator, BinaryOperator, MemberOperator, PostfixOperator, PrefixOperator,
};
pub use print_unit::print;
pub use sign::{sign_number, sign_text};
pub use specifier::{BasicType, Qualifier, RecordKind, Storage};
pub use statement::{
    Block, Declaration, ForHead, InitDeclarator, Initialiser, InitialiserForm, Statement,
    StatementForm,
};
pub use tree_height::{declarator_height, expr_height, specifiers_height};
pub use unit::{External, ExternalForm, FunctionDefinition, Unit};
pub use unit_height::{declaration_height, height};
pub use worked::{nearest_if, scopes_and_types, typedef_names};
