//! The walk over statements (C89 3.6).
ghost use Rattle.std.specs.Prelude.{◌≡◌, ◌++◌, map, IfOk, length};
ghost use Rattle.c_meaning.specs.declared.core_stmt.CoreStmt.TheVariants as stmt;
ghost use Rattle.c_ast.specs.Trees.{Compound};
ghost use Rattle.c_ast.specs.UnitViews.{statements_of};
ghost use Rattle.c_check_expr.specs.Known.{AreSymbolsIn};
ghost use Rattle.c_stmt_parts.specs.BodiesSeen.{around_seen, body_in, within_in};
ghost use Rattle.c_stmt_parts.specs.StatementsIn.{WalksStmt, WalksStmts, block_in, statement_in, statements_in};
ghost use Rattle.c_stmt_parts.specs.StatementsSeen.{block_seen, statement_seen};
ghost use Rattle.c_check_stmt.specs.Ready.{IsReady};

use crate::branches::{if_, if_else, switch};
use crate::labelled::{case, default, labelled};
use crate::leaves::{evaluate, return_};
use crate::loops::{do_, for_, while_};
use crate::spot::Spot;
use c_ast::{Block, Statement, StatementForm};
use c_meaning::CoreStmt;
use c_stmt_parts::{Around, Body, Within, behind, break_, continue_, declarations, goto};
use c_symbols::Scopes;
use c_types::TypeTable;
use c_values::CheckFault;
use lcc_base::{Items, Memory};

/// A statement, checked. The body gets what the statement adds to the function.
#[cycle(statements)]
pub(crate) fn statement(
    scopes: &mut Scopes,
    types: &mut TypeTable,
    body: &mut Body,
    within: &Within,
    around: Around,
    s: &Statement,
) -> Result<CoreStmt, CheckFault>
    requires symbols { AreSymbolsIn (length types.old.forms) scopes.old.symbols }
    requires ready { IsReady types.old within.now body.old }
    ensures { WalksStmt (statement_in (within_in types.old within.now) (around_seen around) scopes.old types.old (body_in types.old body.old) (statement_seen s.now)) scopes.old types.old scopes.new types.new body.new result }
{
    let line = s.line;
    let spot = Spot {
        line,
        within,
        around,
    };
    match &s.form {
        StatementForm::Label(name, inner) => {
            labelled(scopes, types, body, &spot, name.as_slice(), inner)
        }
        StatementForm::Case(e, inner) => case(scopes, types, body, &spot, e, inner),
        StatementForm::Default(inner) => default(scopes, types, body, &spot, inner),
        StatementForm::Expression(e) => evaluate(scopes, types, body, &spot, e),
        StatementForm::Block(block) => compound(scopes, types, body, &spot, block),
        StatementForm::If(e, inner, other) => match other {
            Some(other) => if_else(scopes, types, body, &spot, e, (inner, other)),
            None => if_(scopes, types, body, &spot, e, inner),
        },
        StatementForm::Switch(e, inner) => switch(scopes, types, body, &spot, e, inner),
        StatementForm::While(e, inner) => while_(scopes, types, body, &spot, e, inner),
        StatementForm::Do(inner, e) => do_(scopes, types, body, &spot, inner, e),
        StatementForm::For(head, inner) => for_(scopes, types, body, &spot, head, inner),
        StatementForm::Goto(name) => Ok(goto(body, within, name.as_slice())?),
        StatementForm::Continue => continue_(around, line),
        StatementForm::Break => break_(around, line),
        StatementForm::Return(e) => return_(scopes, types, body, &spot, e),
    }
}

/// Statements, one behind the other.
#[cycle(statements)]
pub(crate) fn statements(
    scopes: &mut Scopes,
    types: &mut TypeTable,
    body: &mut Body,
    within: &Within,
    around: Around,
    list: &[Statement],
) -> Result<Items<CoreStmt>, CheckFault>
    requires symbols { AreSymbolsIn (length types.old.forms) scopes.old.symbols }
    requires ready { IsReady types.old within.now body.old }
    ensures { WalksStmts (statements_in (within_in types.old within.now) (around_seen around) scopes.old types.old (body_in types.old body.old) (statements_of (map statement_seen list.now))) scopes.old types.old scopes.new types.new body.new result }
{
    let mut codes = Items::with_capacity(body.alloc, list.len())?;
    for s in list {
        let code = statement(scopes, types, body, within, around, s)?;
        codes.push(code)?;
    }
    Ok(codes)
}

/// A block in the scope that it stands in: its locals are the function's next, and begin with what their
/// initialisers say (C89 3.6.2).
#[cycle(statements)]
pub fn block(
    scopes: &mut Scopes,
    types: &mut TypeTable,
    body: &mut Body,
    within: &Within,
    around: Around,
    b: &Block,
) -> Result<CoreStmt, CheckFault>
    requires symbols { AreSymbolsIn (length types.old.forms) scopes.old.symbols }
    requires ready { IsReady types.old within.now body.old }
    ensures { WalksStmt (block_in (within_in types.old within.now) (around_seen around) scopes.old types.old (body_in types.old body.old) (block_seen b.now)) scopes.old types.old scopes.new types.new body.new result }
{
    let what = declarations(body.alloc, scopes, types, b.declarations.as_slice())?;
    let start = body.locals.len();
    let count = what.locals.len();
    let fills = body.declare(what)?;
    stays_ready(types, within, body);
    let codes = statements(scopes, types, body, within, around, b.statements.as_slice())?;
    Ok(end_block(start, count, fills, codes)?)
}

/// What is known of the function before its declarations is known behind them.
fn stays_ready(_types: &TypeTable, _within: &Within, _body: &Body)
    requires { IsReady _types.now _within.now _body.now }
    ensures { IsReady _types.now _within.now _body.now }
{}

/// The block whose locals begin at this place, so many, with these statements before those of its text.
fn end_block(
    start: usize,
    count: usize,
    fills: Items<CoreStmt>,
    codes: Items<CoreStmt>,
) -> Result<CoreStmt, Memory>
    ensures { IfOk result (λ s. s ≡ stmt.Block start count (fills ++ codes)) }
{
    Ok(CoreStmt::Block {
        first: small(start)?,
        locals: small(count)?,
        statements: behind(fills, codes)?,
    })
}

/// A number of locals.
fn small(count: usize) -> Result<u32, Memory>
    ensures { IfOk result (λ n. n ≡ count) }
{
    // No source has as many.
    u32::try_from(count).map_err(|_| Memory)
}

/// A block in a scope of its own (C89 3.1.2.1).
#[cycle(statements)]
fn compound(
    scopes: &mut Scopes,
    types: &mut TypeTable,
    body: &mut Body,
    spot: &Spot,
    b: &Block,
) -> Result<CoreStmt, CheckFault>
    requires symbols { AreSymbolsIn (length types.old.forms) scopes.old.symbols }
    requires ready { IsReady types.old spot.now.within.now body.old }
    ensures { WalksStmt (statement_in (within_in types.old spot.now.within.now) (around_seen spot.now.around) scopes.old types.old (body_in types.old body.old) (Compound spot.now.line (block_seen b.now))) scopes.old types.old scopes.new types.new body.new result }
{
    scopes.enter()?;
    let code = block(scopes, types, body, spot.within, spot.around, b);
    scopes.leave();
    code
}
