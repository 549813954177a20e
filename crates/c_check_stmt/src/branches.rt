//! `if` and `switch` (C89 3.6.4).
ghost use Rattle.std.specs.Prelude.{length};
ghost use Rattle.c_ast.specs.Trees.{If, IfElse, Switch};
ghost use Rattle.c_ast.specs.Seen.{expr_seen};
ghost use Rattle.c_check_expr.specs.Known.{AreSymbolsIn};
ghost use Rattle.c_stmt_parts.specs.BodiesSeen.{around_seen, body_in, within_in};
ghost use Rattle.c_stmt_parts.specs.StatementsIn.{WalksStmt, statement_in};
ghost use Rattle.c_check_stmt.specs.Ready.{IsReady};
ghost use Rattle.c_stmt_parts.specs.StatementsSeen.{statement_seen};

use crate::endings::{end_if, end_switch};
use crate::noted::{Noted, replace_noted};
use crate::spot::{Spot, in_switch};
use crate::statements::statement;
use c_ast::{Expr, Statement};
use c_check_expr::pieces::expression;
use c_meaning::CoreStmt;
use c_stmt_parts::{Body, Cases};
use c_symbols::Scopes;
use c_types::TypeTable;
use c_values::CheckFault;

/// `if` without `else`.
#[cycle(statements)]
pub(crate) fn if_(
    scopes: &mut Scopes,
    types: &mut TypeTable,
    body: &mut Body,
    spot: &Spot,
    e: &Expr,
    s: &Statement,
) -> Result<CoreStmt, CheckFault>
    requires symbols { AreSymbolsIn (length types.old.forms) scopes.old.symbols }
    requires ready { IsReady types.old spot.now.within.now body.old }
    ensures { WalksStmt (statement_in (within_in types.old spot.now.within.now) (around_seen spot.now.around) scopes.old types.old (body_in types.old body.old) (If spot.now.line (expr_seen e.now) (statement_seen s.now))) scopes.old types.old scopes.new types.new body.new result }
{
    let alloc = body.alloc;
    let c = expression(alloc, scopes, types, e)?;
    let code = statement(scopes, types, body, spot.within, spot.around, s)?;
    end_if(alloc, types, spot.line, c, code, CoreStmt::Nothing)
}

/// `if` with `else`: the statement behind the test, and that behind `else`.
#[cycle(statements)]
pub(crate) fn if_else(
    scopes: &mut Scopes,
    types: &mut TypeTable,
    body: &mut Body,
    spot: &Spot,
    e: &Expr,
    both: (&Statement, &Statement),
) -> Result<CoreStmt, CheckFault>
    requires symbols { AreSymbolsIn (length types.old.forms) scopes.old.symbols }
    requires ready { IsReady types.old spot.now.within.now body.old }
    ensures { WalksStmt (statement_in (within_in types.old spot.now.within.now) (around_seen spot.now.around) scopes.old types.old (body_in types.old body.old) (IfElse spot.now.line (expr_seen e.now) (statement_seen both.entry.0.now) (statement_seen both.entry.1.now))) scopes.old types.old scopes.new types.new body.new result }
{
    let alloc = body.alloc;
    let (s, other) = both;
    let c = expression(alloc, scopes, types, e)?;
    let code = statement(scopes, types, body, spot.within, spot.around, s)?;
    let behind = statement(scopes, types, body, spot.within, spot.around, other)?;
    end_if(alloc, types, spot.line, c, code, behind)
}

/// `switch`, with the cases that stand in it. Behind it those of the switch around are noted again.
#[cycle(statements)]
pub(crate) fn switch(
    scopes: &mut Scopes,
    types: &mut TypeTable,
    body: &mut Body,
    spot: &Spot,
    e: &Expr,
    s: &Statement,
) -> Result<CoreStmt, CheckFault>
    requires symbols { AreSymbolsIn (length types.old.forms) scopes.old.symbols }
    requires ready { IsReady types.old spot.now.within.now body.old }
    ensures { WalksStmt (statement_in (within_in types.old spot.now.within.now) (around_seen spot.now.around) scopes.old types.old (body_in types.old body.old) (Switch spot.now.line (expr_seen e.now) (statement_seen s.now))) scopes.old types.old scopes.new types.new body.new result }
{
    let alloc = body.alloc;
    let inside = in_switch(spot.around);
    let c = expression(alloc, scopes, types, e)?;
    let none = Noted {
        cases: Cases::new(alloc),
        default: None,
    };
    let outer = replace_noted(body, none);
    let code = statement(scopes, types, body, spot.within, inside, s)?;
    let own = replace_noted(body, outer);
    end_switch(alloc, types, spot.line, c, own, code)
}
