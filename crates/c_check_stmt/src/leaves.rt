//! Statements without statements in them that have an expression (C89 3.6.3, 3.6.6.4).
ghost use Rattle.std.specs.Prelude.{length};
ghost use Rattle.c_ast.specs.Trees.{AnExpr, Return};
ghost use Rattle.c_ast.specs.Trees as tree;
ghost use Rattle.c_ast.specs.Seen.{expr_seen, maybe_expr_seen};
ghost use Rattle.c_check_expr.specs.Known.{AreSymbolsIn};
ghost use Rattle.c_stmt_parts.specs.BodiesSeen.{around_seen, body_in, within_in};
ghost use Rattle.c_stmt_parts.specs.StatementsIn.{WalksStmt, statement_in};
ghost use Rattle.c_check_stmt.specs.Ready.{IsReady};

use crate::spot::Spot;
use c_ast::Expr;
use c_check_expr::pieces::{expression, maybe_expression};
use c_meaning::CoreStmt;
use c_stmt_parts::{Body, evaluated, returned};
use c_symbols::Scopes;
use c_types::TypeTable;
use c_values::CheckFault;

/// An expression whose value isn't used, or nothing.
pub(crate) fn evaluate(
    scopes: &mut Scopes,
    types: &mut TypeTable,
    body: &mut Body,
    spot: &Spot,
    e: &Option<Expr>,
) -> Result<CoreStmt, CheckFault>
    requires symbols { AreSymbolsIn (length types.old.forms) scopes.old.symbols }
    requires ready { IsReady types.old spot.now.within.now body.old }
    ensures { WalksStmt (statement_in (within_in types.old spot.now.within.now) (around_seen spot.now.around) scopes.old types.old (body_in types.old body.old) (tree.Expression spot.now.line (maybe_expr_seen e.now))) scopes.old types.old scopes.new types.new body.new result }
{
    match e {
        Some(e) => evaluate_expression(scopes, types, body, spot, e),
        None => Ok(CoreStmt::Nothing),
    }
}

/// An expression whose value isn't used.
fn evaluate_expression(
    scopes: &mut Scopes,
    types: &mut TypeTable,
    body: &mut Body,
    spot: &Spot,
    e: &Expr,
) -> Result<CoreStmt, CheckFault>
    requires symbols { AreSymbolsIn (length types.old.forms) scopes.old.symbols }
    requires ready { IsReady types.old spot.now.within.now body.old }
    ensures { WalksStmt (statement_in (within_in types.old spot.now.within.now) (around_seen spot.now.around) scopes.old types.old (body_in types.old body.old) (tree.Expression spot.now.line (AnExpr (expr_seen e.now)))) scopes.old types.old scopes.new types.new body.new result }
{
    let alloc = body.alloc;
    let c = expression(alloc, scopes, types, e)?;
    let value = evaluated(alloc, types, spot.line, c)?;
    Ok(CoreStmt::Expression(value))
}

/// `return`, perhaps with a value.
pub(crate) fn return_(
    scopes: &mut Scopes,
    types: &mut TypeTable,
    body: &mut Body,
    spot: &Spot,
    e: &Option<Expr>,
) -> Result<CoreStmt, CheckFault>
    requires symbols { AreSymbolsIn (length types.old.forms) scopes.old.symbols }
    requires ready { IsReady types.old spot.now.within.now body.old }
    ensures { WalksStmt (statement_in (within_in types.old spot.now.within.now) (around_seen spot.now.around) scopes.old types.old (body_in types.old body.old) (Return spot.now.line (maybe_expr_seen e.now))) scopes.old types.old scopes.new types.new body.new result }
{
    let alloc = body.alloc;
    let c = maybe_expression(alloc, scopes, types, e)?;
    let value = returned(alloc, types, spot.line, spot.within.result, c)?;
    Ok(CoreStmt::Return(value))
}
