//! The frames of the evaluator's stack: what is left to do around what is under way.
use c_meaning::{CoreExpr, CoreStmt, FilledPlace};
use objects::Value;

/// Where an expression or a statement that is under way stands: what is left to do of what is around it.
#[derive(Clone, Copy)]
pub enum Frame<'a> {
    /// In an expression, other than a comma's, whose first part is awaited.
    First(&'a CoreExpr),
    /// In an expression of two parts, whose first gave this value.
    Second(&'a CoreExpr, Value),
    /// In a `&&` or `||` whose right part decides.
    Right(&'a CoreExpr),
    /// Behind a part of a comma: these parts are left.
    Comma(&'a [CoreExpr]),
    /// In a call, as the first of these arguments; n is the local of the call's next copy.
    Argument(&'a [CoreExpr], u32),
    /// An argument of the call above, and its value.
    Passed(&'a CoreExpr, Value),
    /// Below the arguments of a call that calls this value.
    Called(&'a CoreExpr, Value),
    /// A call whose function's body is under way: the local of a structure result, how many objects lived before, and
    /// how many locals stand before the caller's.
    Activation(&'a CoreExpr, u32, usize, usize),
    /// An expression that is a statement.
    Drop,
    /// A statement behind which these stand.
    Then(&'a [CoreStmt]),
    /// The statements of a block, whose labels catch gotos.
    Catch(&'a [CoreStmt]),
    /// The test of an `if`, and its two statements.
    Branch(&'a CoreExpr, &'a CoreStmt, &'a CoreStmt),
    /// The first part of a `for`.
    Initial(&'a CoreStmt),
    /// The body of a loop.
    Body(&'a CoreStmt),
    /// The last part of a `for`.
    Last(&'a CoreStmt),
    /// The test of a loop.
    Test(&'a CoreStmt),
    /// The value of a `switch`.
    Switch(&'a CoreStmt),
    /// The body of a `switch`.
    Switched,
    /// The value of a `return`.
    Return(&'a CoreExpr),
    /// The value of the first of these places of an object.
    Fill(&'a [FilledPlace], Value),
}
