//! The syntax trees of declarations, initialisers, statements and blocks.
use crate::expr::{Declarator, Expr, Specifiers};
use lcc_base::{Bytes, Items};

/// A declaration. Source: C89 3.5.
#[derive(Drop)]
pub struct Declaration {
    /// The line of its first token.
    pub line: u32,
    pub specifiers: Specifiers,
    pub declarators: Items<InitDeclarator>,
}

/// A declarator, perhaps with its initialiser. Source: C89 3.5.
#[derive(Drop)]
pub struct InitDeclarator {
    /// The line of its first token.
    pub line: u32,
    pub declarator: Declarator,
    pub initialiser: Option<Box<Initialiser>>,
}

/// An initialiser. Source: C89 3.5.7.
#[cycle(initialiser)]
#[derive(Drop)]
pub struct Initialiser {
    /// The line of its first token.
    pub line: u32,
    pub form: InitialiserForm,
}

/// What an initialiser is.
#[cycle(initialiser)]
#[derive(Drop)]
pub enum InitialiserForm {
    Expr(Expr),
    /// Initialisers in braces, at least one; a comma may stand behind the last.
    List {
        items: Items<Initialiser>,
        comma: bool,
    },
}

/// A statement. Source: C89 3.6.
#[cycle(statement)]
#[derive(Drop)]
pub struct Statement {
    /// The line of its first token.
    pub line: u32,
    pub form: StatementForm,
}

/// What a statement is.
#[cycle(statement)]
#[derive(Drop)]
pub enum StatementForm {
    Label(Bytes, Box<Statement>),
    Case(Expr, Box<Statement>),
    Default(Box<Statement>),
    Expression(Option<Expr>),
    Block(Box<Block>),
    If(Box<Expr>, Box<Statement>, Option<Box<Statement>>),
    Switch(Expr, Box<Statement>),
    While(Expr, Box<Statement>),
    Do(Box<Statement>, Expr),
    For(Box<ForHead>, Box<Statement>),
    Goto(Bytes),
    Continue,
    Break,
    Return(Option<Expr>),
}

/// The three expressions at a `for`, each of which may be left out. Source: C89 3.6.5.3.
#[derive(Drop)]
pub struct ForHead {
    pub first: Option<Expr>,
    pub test: Option<Expr>,
    pub last: Option<Expr>,
}

/// Declarations and statements in braces. Source: C89 3.6.2.
#[cycle(statement)]
#[derive(Drop)]
pub struct Block {
    /// The line of its first token.
    pub line: u32,
    pub declarations: Items<Declaration>,
    pub statements: Items<Statement>,
}
