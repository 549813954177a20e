//! The focus of C's evaluator: the expression, statement or result that it is at.
use crate::how::How;
use c_meaning::{CoreExpr, CoreStmt, FilledPlace};
use objects::Value;

/// What is under way.
#[derive(Clone, Copy)]
pub enum Focus<'a> {
    /// An expression is evaluated.
    Eval(&'a CoreExpr),
    /// One gave a value.
    Value(Value),
    /// One gave none: it is void, or a call in this line ended without a value.
    NoValue(u32),
    /// A statement begins, or is entered at a label in it.
    Start(&'a CoreStmt),
    At(&'a CoreStmt, u32),
    /// So do statements in order.
    List(&'a [CoreStmt]),
    ListAt(&'a [CoreStmt], u32),
    /// The places of an object are filled.
    Fill(&'a [FilledPlace], Value),
    /// A statement has ended: as it stands, or by a jump.
    Next,
    Break,
    Continue,
    Return(Option<Value>, u32),
    Goto(u32),
    /// A repetition of a loop, once a turn is spent.
    Repeat(&'a CoreStmt),
    /// A goto to a label of a block's statements, once a turn is spent.
    Jump(&'a [CoreStmt], u32),
    /// A call with the arguments on top, once a turn is spent; n is the local behind its copies.
    Invoke(u32),
    /// The run ends.
    Over(How),
}
