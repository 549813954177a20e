//! Loops (C89 3.6.5).
ghost use Rattle.c_ast.specs.Trees.{Do, For, While};
ghost use Rattle.c_ast.specs.Seen.{expr_seen, maybe_expr_seen};
ghost use Rattle.std.specs.Prelude.{length};
ghost use Rattle.c_check_expr.specs.Known.{AreSymbolsIn};
ghost use Rattle.c_check_expr.specs.Walks.{Walks};
ghost use Rattle.c_stmt_parts.specs.Heads.{IsHeadIn, head_in, head_typed_in};
ghost use Rattle.c_stmt_parts.specs.BodiesSeen.{around_seen, body_in, within_in};
ghost use Rattle.c_stmt_parts.specs.StatementsIn.{WalksStmt, statement_in};
ghost use Rattle.c_check_stmt.specs.Ready.{IsReady};
ghost use Rattle.c_stmt_parts.specs.StatementsSeen.{statement_seen};

use crate::endings::{end_do, end_for, end_while};
use crate::spot::{Spot, in_loop};
use crate::statements::statement;
use c_ast::{Expr, ForHead, Statement};
use c_check_expr::pieces::{expression, maybe_expression};
use c_meaning::{CoreForHead, CoreStmt};
use c_stmt_parts::Body;
use c_symbols::Scopes;
use c_types::TypeTable;
use c_values::CheckFault;
use std::alloc::Global;

/// `while`.
#[cycle(statements)]
pub(crate) fn while_(
    scopes: &mut Scopes,
    types: &mut TypeTable,
    body: &mut Body,
    spot: &Spot,
    e: &Expr,
    s: &Statement,
) -> Result<CoreStmt, CheckFault>
    requires symbols { AreSymbolsIn (length types.old.forms) scopes.old.symbols }
    requires ready { IsReady types.old spot.now.within.now body.old }
    ensures { WalksStmt (statement_in (within_in types.old spot.now.within.now) (around_seen spot.now.around) scopes.old types.old (body_in types.old body.old) (While spot.now.line (expr_seen e.now) (statement_seen s.now))) scopes.old types.old scopes.new types.new body.new result }
{
    let alloc = body.alloc;
    let inside = in_loop(spot.around);
    let c = expression(alloc, scopes, types, e)?;
    let code = statement(scopes, types, body, spot.within, inside, s)?;
    end_while(alloc, types, spot.line, c, code)
}

/// `do`.
#[cycle(statements)]
pub(crate) fn do_(
    scopes: &mut Scopes,
    types: &mut TypeTable,
    body: &mut Body,
    spot: &Spot,
    s: &Statement,
    e: &Expr,
) -> Result<CoreStmt, CheckFault>
    requires symbols { AreSymbolsIn (length types.old.forms) scopes.old.symbols }
    requires ready { IsReady types.old spot.now.within.now body.old }
    ensures { WalksStmt (statement_in (within_in types.old spot.now.within.now) (around_seen spot.now.around) scopes.old types.old (body_in types.old body.old) (Do spot.now.line (statement_seen s.now) (expr_seen e.now))) scopes.old types.old scopes.new types.new body.new result }
{
    let alloc = body.alloc;
    let inside = in_loop(spot.around);
    let code = statement(scopes, types, body, spot.within, inside, s)?;
    let c = expression(alloc, scopes, types, e)?;
    end_do(alloc, types, spot.line, code, c)
}

/// The parts of a `for`'s head, in order, where they are there.
fn head(
    alloc: Global,
    scopes: &mut Scopes,
    types: &mut TypeTable,
    parts: &ForHead,
) -> Result<CoreForHead, CheckFault>
    requires { AreSymbolsIn (length types.old.forms) scopes.old.symbols }
    ensures { Walks head_in IsHeadIn (head_typed_in scopes.old types.old (maybe_expr_seen parts.now.first) (maybe_expr_seen parts.now.test) (maybe_expr_seen parts.now.last)) scopes.old types.old scopes.new types.new result }
{
    let first = maybe_expression(alloc, scopes, types, &parts.first)?;
    let test = maybe_expression(alloc, scopes, types, &parts.test)?;
    let last = maybe_expression(alloc, scopes, types, &parts.last)?;
    Ok(CoreForHead { first, test, last })
}

/// `for`.
#[cycle(statements)]
pub(crate) fn for_(
    scopes: &mut Scopes,
    types: &mut TypeTable,
    body: &mut Body,
    spot: &Spot,
    parts: &ForHead,
    s: &Statement,
) -> Result<CoreStmt, CheckFault>
    requires symbols { AreSymbolsIn (length types.old.forms) scopes.old.symbols }
    requires ready { IsReady types.old spot.now.within.now body.old }
    ensures { WalksStmt (statement_in (within_in types.old spot.now.within.now) (around_seen spot.now.around) scopes.old types.old (body_in types.old body.old) (For spot.now.line (maybe_expr_seen parts.now.first) (maybe_expr_seen parts.now.test) (maybe_expr_seen parts.now.last) (statement_seen s.now))) scopes.old types.old scopes.new types.new body.new result }
{
    let alloc = body.alloc;
    let inside = in_loop(spot.around);
    let head = head(alloc, scopes, types, parts)?;
    let code = statement(scopes, types, body, spot.within, inside, s)?;
    end_for(alloc, types, spot.line, head, code)
}
