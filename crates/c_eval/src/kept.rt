//! Frames as they are kept.

use c_meaning::{CoreExpr, CoreStmt};

/// A frame as it is kept: as `Frame`, but with one tree at most. What else a frame has stands apart.
#[derive(Clone, Copy)]
pub enum Kept<'a> {
    First(&'a CoreExpr),
    Second(&'a CoreExpr),
    Right(&'a CoreExpr),
    Comma,
    Argument(u32),
    Passed(&'a CoreExpr),
    Called(&'a CoreExpr),
    Activation(u32, &'a CoreExpr),
    Drop,
    Then,
    Catch,
    Branch(&'a CoreExpr),
    Initial(&'a CoreStmt),
    Body(&'a CoreStmt),
    Last(&'a CoreStmt),
    Test(&'a CoreStmt),
    Switch(&'a CoreStmt),
    Switched,
    Return(&'a CoreExpr),
    Fill,
}

/// The two statements of an `if`.
#[derive(Clone, Copy)]
pub struct Ways<'a> {
    pub then: &'a CoreStmt,
    pub otherwise: &'a CoreStmt,
}

/// How many objects lived before a call, and how many locals stand before the caller's.
#[derive(Clone, Copy)]
pub struct Counts {
    pub objects: u32,
    pub base: u32,
}
