//! What a statement becomes when its parts are checked: its own node, and its checked form (C89 3.6).
ghost use Rattle.std.specs.Prelude.{◌≡◌, ℕ, length};
ghost use Rattle.c_types.specs.Table.{Table};
ghost use Rattle.c_meaning.specs.CoreTrees.{IsIn};
ghost use Rattle.c_meaning.specs.StmtTrees.{IsStmtIn, stmt_of};
ghost use Rattle.c_meaning.specs.StmtTrees as tree;
ghost use Rattle.c_meaning.specs.Values.{promoted_value, value};
ghost use Rattle.c_check_expr.specs.Walks.{core};
ghost use Rattle.c_check_decl.specs.Declares.{stmt_in};
ghost use Rattle.c_units.specs.Bodies.{maybe_value};
ghost use Rattle.c_units.specs.Statements as node;
ghost use Rattle.c_stmt_parts.specs.Asked.{maybe_core};
ghost use Rattle.c_stmt_parts.specs.BodiesSeen.{around_seen};
ghost use Rattle.c_stmt_parts.specs.Heads.{IsHeadIn, for_node};
ghost use Rattle.c_check_stmt.specs.Ends.{Ends};

use crate::noted::Noted;
use crate::spot::Spot;
use c_meaning::{CoreExpr, CoreForHead, CoreStmt};
use c_stmt_parts::{case, default, label, repeated, switched, test};
use c_types::TypeTable;
use c_values::CheckFault;
use std::alloc::Global;

/// A label, a case or a default: its number, and whether it stood before.
#[derive(Clone, Copy)]
pub(crate) struct Mark {
    pub(crate) number: u32,
    pub(crate) again: bool,
}

/// The statement behind a name, on this line.
pub(crate) fn end_label(
    alloc: Global,
    line: u32,
    mark: Mark,
    code: CoreStmt,
) -> Result<CoreStmt, CheckFault>
    ensures { (t : Table) → IsStmtIn (length t.forms) (stmt_of code) → Ends t line (node.Label mark.again) (tree.Label mark.number (stmt_in t code)) t result }
{
    label(mark.again, line)?;
    let boxed = Box::new(alloc, code)?;
    Ok(CoreStmt::Label(mark.number, boxed))
}

/// The statement behind a `case` of this expression.
pub(crate) fn end_case(
    alloc: Global,
    types: &TypeTable,
    spot: &Spot,
    mark: Mark,
    e: &CoreExpr,
    code: CoreStmt,
) -> Result<CoreStmt, CheckFault>
    requires e { IsIn (length types.now.forms) e.now }
    requires code { IsStmtIn (length types.now.forms) (stmt_of code) }
    ensures { Ends types.now spot.now.line (node.Case (core types.now e.now) (around_seen spot.now.around) mark.again) (tree.Label mark.number (stmt_in types.now code)) types.now result }
{
    case(types, spot.around, mark.again, spot.line, e)?;
    let boxed = Box::new(alloc, code)?;
    Ok(CoreStmt::Label(mark.number, boxed))
}

/// The statement behind a `default`.
pub(crate) fn end_default(
    alloc: Global,
    spot: &Spot,
    mark: Mark,
    code: CoreStmt,
) -> Result<CoreStmt, CheckFault>
    ensures { (t : Table) → IsStmtIn (length t.forms) (stmt_of code) → Ends t spot.now.line (node.Default (around_seen spot.now.around) mark.again) (tree.Label mark.number (stmt_in t code)) t result }
{
    default(spot.around, mark.again, spot.line)?;
    let boxed = Box::new(alloc, code)?;
    Ok(CoreStmt::Label(mark.number, boxed))
}

/// An `if` on this line with both its statements; without `else` the second is nothing.
pub(crate) fn end_if(
    alloc: Global,
    types: &mut TypeTable,
    line: u32,
    e: CoreExpr,
    code: CoreStmt,
    other: CoreStmt,
) -> Result<CoreStmt, CheckFault>
    requires e { IsIn (length types.old.forms) e }
    requires code { IsStmtIn (length types.old.forms) (stmt_of code) }
    requires other { IsStmtIn (length types.old.forms) (stmt_of other) }
    ensures { Ends types.old line (node.Test (core types.old e)) (tree.If (value (core types.old e)) (stmt_in types.old code) (stmt_in types.old other)) types.new result }
{
    let test = test(alloc, types, line, e)?;
    let boxed = Box::new(alloc, test)?;
    let then = Box::new(alloc, code)?;
    let otherwise = Box::new(alloc, other)?;
    Ok(CoreStmt::If {
        test: boxed,
        then,
        otherwise,
    })
}

/// A `switch` on this line, with its cases and the label of its default.
pub(crate) fn end_switch(
    alloc: Global,
    types: &mut TypeTable,
    line: u32,
    e: CoreExpr,
    own: Noted,
    code: CoreStmt,
) -> Result<CoreStmt, CheckFault>
    requires e { IsIn (length types.old.forms) e }
    requires code { IsStmtIn (length types.old.forms) (stmt_of code) }
    ensures { Ends types.old line (node.Switch (core types.old e)) (tree.Switch (promoted_value (value (core types.old e))) own.cases own.default (stmt_in types.old code)) types.new result }
{
    let value = switched(alloc, types, line, e)?;
    let boxed_value = Box::new(alloc, value)?;
    let cases = own.cases.into_list(alloc)?;
    let boxed = Box::new(alloc, code)?;
    Ok(CoreStmt::Switch {
        value: boxed_value,
        cases,
        default: own.default,
        body: boxed,
    })
}

/// A `while` on this line.
pub(crate) fn end_while(
    alloc: Global,
    types: &mut TypeTable,
    line: u32,
    e: CoreExpr,
    code: CoreStmt,
) -> Result<CoreStmt, CheckFault>
    requires e { IsIn (length types.old.forms) e }
    requires code { IsStmtIn (length types.old.forms) (stmt_of code) }
    ensures { Ends types.old line (node.Test (core types.old e)) (tree.While (value (core types.old e)) (stmt_in types.old code)) types.new result }
{
    let test = test(alloc, types, line, e)?;
    let boxed = Box::new(alloc, code)?;
    Ok(CoreStmt::While { test, body: boxed })
}

/// A `do` on this line.
pub(crate) fn end_do(
    alloc: Global,
    types: &mut TypeTable,
    line: u32,
    code: CoreStmt,
    e: CoreExpr,
) -> Result<CoreStmt, CheckFault>
    requires e { IsIn (length types.old.forms) e }
    requires code { IsStmtIn (length types.old.forms) (stmt_of code) }
    ensures { Ends types.old line (node.Test (core types.old e)) (tree.Do (stmt_in types.old code) (value (core types.old e))) types.new result }
{
    let test = test(alloc, types, line, e)?;
    let boxed = Box::new(alloc, code)?;
    Ok(CoreStmt::Do { body: boxed, test })
}

/// A `for` on this line.
pub(crate) fn end_for(
    alloc: Global,
    types: &mut TypeTable,
    line: u32,
    head: CoreForHead,
    code: CoreStmt,
) -> Result<CoreStmt, CheckFault>
    requires head { IsHeadIn (length types.old.forms) head }
    requires code { IsStmtIn (length types.old.forms) (stmt_of code) }
    ensures { Ends types.old line (for_node types.old head) (tree.For (maybe_value (maybe_core types.old head.first)) (maybe_value (maybe_core types.old head.test)) (maybe_value (maybe_core types.old head.last)) (stmt_in types.old code)) types.new result }
{
    let own = repeated(alloc, types, line, head)?;
    let own = Box::new(alloc, own)?;
    let body = Box::new(alloc, code)?;
    Ok(CoreStmt::For { head: own, body })
}
