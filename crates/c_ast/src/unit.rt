//! The syntax trees of translation units: external declarations and function definitions.
use crate::expr::{Declarator, Specifiers};
use crate::statement::{Block, Declaration};
use lcc_base::Items;

/// A translation unit: external declarations, at least one. Source: C89 3.7.
#[derive(Drop)]
pub struct Unit {
    /// The line of its first token.
    pub line: u32,
    pub externals: Items<External>,
}

/// An external declaration. Source: C89 3.7.
#[derive(Drop)]
pub struct External {
    /// The line of its first token.
    pub line: u32,
    pub form: ExternalForm,
}

/// What an external declaration is.
#[derive(Drop)]
pub enum ExternalForm {
    Function(Box<FunctionDefinition>),
    Declaration(Declaration),
    /// A lone `;`, which isn't the first.
    Empty,
}

/// A function's definition. Source: C89 3.7.1.
#[derive(Drop)]
pub struct FunctionDefinition {
    pub specifiers: Option<Specifiers>,
    pub declarator: Declarator,
    /// The declarations of old-style parameters.
    pub parameters: Items<Declaration>,
    pub body: Block,
}
