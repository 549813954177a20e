//! Checked statements, with numbered labels and the cases of each `switch`.
use crate::core_expr::CoreExpr;
use crate::filled_place::FilledPlace;
use lcc_base::Items;

/// A case of a `switch`: where its value, modulo 2^32, equals the number, the body is entered at the
/// label.
#[derive(Clone, Copy, Debug, PartialEq, Eq)]
pub struct CoreCase {
    pub number: u32,
    pub label: u32,
}

/// The parts of a `for`'s head, where they are there. Without a test it goes on.
#[derive(Debug, Drop)]
pub struct CoreForHead {
    pub first: Option<CoreExpr>,
    pub test: Option<CoreExpr>,
    pub last: Option<CoreExpr>,
}

/// A checked statement (C89 3.6). Labels are numbers, each of its own in a function: those that the
/// program names, and one for each case and default.
#[derive(Drop)]
pub enum CoreStmt {
    Nothing,
    Expression(CoreExpr),
    /// A local object gets its first value: it becomes zero bytes as a whole where `zero` says so, then
    /// each place is filled in turn.
    Initialise {
        local: u32,
        zero: bool,
        places: Items<FilledPlace>,
    },
    /// Statements in order, and the locals that are declared in the block: so many, from this place on.
    Block {
        first: u32,
        locals: u32,
        statements: Items<CoreStmt>,
    },
    If {
        test: Box<CoreExpr>,
        then: Box<CoreStmt>,
        otherwise: Box<CoreStmt>,
    },
    While {
        test: CoreExpr,
        body: Box<CoreStmt>,
    },
    Do {
        body: Box<CoreStmt>,
        test: CoreExpr,
    },
    For {
        head: Box<CoreForHead>,
        body: Box<CoreStmt>,
    },
    /// The value is of a promoted type. The cases stand in the order of the text, no two with one
    /// number. Where none fits, the body is entered at the default's label, if there is one.
    Switch {
        value: Box<CoreExpr>,
        cases: Items<CoreCase>,
        default: Option<u32>,
        body: Box<CoreStmt>,
    },
    /// A statement that a goto, a case or a default goes to.
    Label(u32, Box<CoreStmt>),
    Goto(u32),
    Break,
    Continue,
    /// The value is converted to the function's result.
    Return(Option<CoreExpr>),
}
