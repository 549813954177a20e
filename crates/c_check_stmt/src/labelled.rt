//! Labels, cases and defaults (C89 3.6.1).
ghost use Rattle.std.specs.Prelude.{length};
ghost use Rattle.c_ast.specs.Trees.{Case, Default, Label};
ghost use Rattle.c_ast.specs.Seen.{expr_seen};
ghost use Rattle.c_check_expr.specs.Known.{AreSymbolsIn};
ghost use Rattle.c_stmt_parts.specs.BodiesSeen.{around_seen, body_in, within_in};
ghost use Rattle.c_stmt_parts.specs.StatementsIn.{WalksStmt, statement_in};
ghost use Rattle.c_check_stmt.specs.Ready.{IsReady};
ghost use Rattle.c_stmt_parts.specs.StatementsSeen.{statement_seen};

use crate::endings::{Mark, end_case, end_default, end_label};
use crate::spot::Spot;
use crate::statements::statement;
use c_ast::{Expr, Statement};
use c_check_expr::pieces::expression;
use c_meaning::CoreStmt;
use c_stmt_parts::{Body, is_again, number_of};
use c_symbols::Scopes;
use c_types::TypeTable;
use c_values::CheckFault;

/// A statement behind a name.
#[cycle(statements)]
pub(crate) fn labelled(
    scopes: &mut Scopes,
    types: &mut TypeTable,
    body: &mut Body,
    spot: &Spot,
    name: &[u8],
    s: &Statement,
) -> Result<CoreStmt, CheckFault>
    requires symbols { AreSymbolsIn (length types.old.forms) scopes.old.symbols }
    requires ready { IsReady types.old spot.now.within.now body.old }
    ensures { WalksStmt (statement_in (within_in types.old spot.now.within.now) (around_seen spot.now.around) scopes.old types.old (body_in types.old body.old) (Label spot.now.line name.now (statement_seen s.now))) scopes.old types.old scopes.new types.new body.new result }
{
    let again = is_again(body, spot.within, name);
    let number = body.mark()?;
    let code = statement(scopes, types, body, spot.within, spot.around, s)?;
    end_label(body.alloc, spot.line, Mark { number, again }, code)
}

/// A statement behind `case`.
#[cycle(statements)]
pub(crate) fn case(
    scopes: &mut Scopes,
    types: &mut TypeTable,
    body: &mut Body,
    spot: &Spot,
    e: &Expr,
    s: &Statement,
) -> Result<CoreStmt, CheckFault>
    requires symbols { AreSymbolsIn (length types.old.forms) scopes.old.symbols }
    requires ready { IsReady types.old spot.now.within.now body.old }
    ensures { WalksStmt (statement_in (within_in types.old spot.now.within.now) (around_seen spot.now.around) scopes.old types.old (body_in types.old body.old) (Case spot.now.line (expr_seen e.now) (statement_seen s.now))) scopes.old types.old scopes.new types.new body.new result }
{
    let c = expression(body.alloc, scopes, types, e)?;
    let value = number_of(types, &c);
    let again = body.has_case(spot.around, value);
    let number = body.mark_case(spot.around, value)?;
    let code = statement(scopes, types, body, spot.within, spot.around, s)?;
    end_case(body.alloc, types, spot, Mark { number, again }, &c, code)
}

/// A statement behind `default`.
#[cycle(statements)]
pub(crate) fn default(
    scopes: &mut Scopes,
    types: &mut TypeTable,
    body: &mut Body,
    spot: &Spot,
    s: &Statement,
) -> Result<CoreStmt, CheckFault>
    requires symbols { AreSymbolsIn (length types.old.forms) scopes.old.symbols }
    requires ready { IsReady types.old spot.now.within.now body.old }
    ensures { WalksStmt (statement_in (within_in types.old spot.now.within.now) (around_seen spot.now.around) scopes.old types.old (body_in types.old body.old) (Default spot.now.line (statement_seen s.now))) scopes.old types.old scopes.new types.new body.new result }
{
    let again = body.has_default(spot.around);
    let number = body.mark_default(spot.around)?;
    let code = statement(scopes, types, body, spot.within, spot.around, s)?;
    end_default(body.alloc, spot, Mark { number, again }, code)
}
