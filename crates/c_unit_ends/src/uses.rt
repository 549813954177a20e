//! The least line on which a name stands that nothing defines (C89 3.7).
ghost use Rattle.std.specs.Prelude.{◌≡◌, ◌++◌, map};
ghost use Rattle.c_meaning.specs.CoreTrees.{cores_of};
ghost use Rattle.c_meaning.specs.StmtTrees.{filled_of, stmt_of, stmts_of};
ghost use Rattle.c_units.specs.Ends.{least as least_line};
ghost use Rattle.c_unit_ends.specs.NameFaults.{missing_in, missing_with};
ghost use Rattle.c_unit_ends.specs.Uses.{all_uses, function_uses, object_uses, place_uses, some_uses, stmt_uses, stmts_uses, uses};

use c_check_decl::DefinedObject;
use c_meaning::{CoreExpr, CoreForHead, CoreKind, CoreStmt, FilledPlace};
use c_standings::Standings;
use c_symbols::SymbolId;
use c_unit_parts::DefinedFunction;

/// The lesser of the two lines.
pub(crate) fn least(found: Option<u32>, line: u32) -> Option<u32>
    ensures { result ≡ least_line found line }
{
    match found {
        Some(other) if other <= line => found,
        _ => Some(line),
    }
}

/// With a name that stands on this line.
fn with_name(standings: &Standings, found: Option<u32>, id: SymbolId, line: u32) -> Option<u32>
    ensures { result ≡ missing_with standings.now found (id, line) }
{
    match standings.of(id) {
        Some(_) => found,
        None => least(found, line),
    }
}

/// With the names of an expression.
#[cycle(expression)]
fn in_expr(standings: &Standings, found: Option<u32>, c: &CoreExpr) -> Option<u32>
    ensures { result ≡ missing_in standings.now found (uses c.now) }
{
    match &c.what {
        CoreKind::Symbol(id) => with_name(standings, found, *id, c.line),
        _ => in_all(standings, found, c.kids.as_slice()),
    }
}

/// With those of several.
#[cycle(expression)]
fn in_all(standings: &Standings, found: Option<u32>, list: &[CoreExpr]) -> Option<u32>
    ensures { result ≡ missing_in standings.now found (all_uses (cores_of list.now)) }
{
    let mut least = found;
    for c in list {
        least = in_expr(standings, least, c);
    }
    least
}

/// With those of an expression, if it is there.
fn in_some(standings: &Standings, found: Option<u32>, c: &Option<CoreExpr>) -> Option<u32>
    ensures { result ≡ missing_in standings.now found (some_uses c.now) }
{
    match c {
        Some(c) => in_expr(standings, found, c),
        None => found,
    }
}

/// With those of the values of places.
fn in_places(standings: &Standings, found: Option<u32>, list: &[FilledPlace]) -> Option<u32>
    ensures { result ≡ missing_in standings.now found (place_uses (map filled_of list.now)) }
{
    let mut least = found;
    for place in list {
        least = in_expr(standings, least, &place.value);
    }
    least
}

/// With those of a statement.
#[cycle(statement)]
fn in_stmt(standings: &Standings, found: Option<u32>, s: &CoreStmt) -> Option<u32>
    ensures { result ≡ missing_in standings.now found (stmt_uses (stmt_of s.now)) }
{
    match s {
        CoreStmt::Expression(e) => in_expr(standings, found, e),
        CoreStmt::Initialise { places, .. } => in_places(standings, found, places.as_slice()),
        CoreStmt::Block { statements, .. } => in_stmts(standings, found, statements.as_slice()),
        CoreStmt::If {
            test,
            then,
            otherwise,
        } => {
            let before = in_expr(standings, found, test);
            let between = in_stmt(standings, before, then);
            in_stmt(standings, between, otherwise)
        }
        CoreStmt::While { test, body } => {
            let before = in_expr(standings, found, test);
            in_stmt(standings, before, body)
        }
        CoreStmt::Do { body, test } => {
            let before = in_stmt(standings, found, body);
            in_expr(standings, before, test)
        }
        CoreStmt::For { head, body } => {
            let before = in_head(standings, found, head);
            in_stmt(standings, before, body)
        }
        CoreStmt::Switch { value, body, .. } => {
            let before = in_expr(standings, found, value);
            in_stmt(standings, before, body)
        }
        CoreStmt::Label(_, inner) => in_stmt(standings, found, inner),
        CoreStmt::Return(value) => in_some(standings, found, value),
        CoreStmt::Nothing | CoreStmt::Goto(_) | CoreStmt::Break | CoreStmt::Continue => found,
    }
}

#[tactic(auto, using(crate::proofs::Missing::missing_behind))]
/// With those of the three expressions of a `for`.
fn in_head(standings: &Standings, found: Option<u32>, head: &CoreForHead) -> Option<u32>
    ensures { result ≡ missing_in standings.now found (some_uses head.now.first ++ some_uses head.now.test ++ some_uses head.now.last) }
{
    let before = in_some(standings, found, &head.first);
    let between = in_some(standings, before, &head.test);
    in_some(standings, between, &head.last)
}

/// With those of statements in order.
#[cycle(statement)]
fn in_stmts(standings: &Standings, found: Option<u32>, list: &[CoreStmt]) -> Option<u32>
    ensures { result ≡ missing_in standings.now found (stmts_uses (stmts_of (map stmt_of list.now))) }
{
    let mut least = found;
    for s in list {
        least = in_stmt(standings, least, s);
    }
    least
}

/// With those of objects' initialisers.
pub(crate) fn in_objects(
    standings: &Standings,
    found: Option<u32>,
    list: &[DefinedObject],
) -> Option<u32>
    ensures { result ≡ missing_in standings.now found (object_uses list.now) }
{
    let mut least = found;
    for object in list {
        least = in_places(standings, least, object.object.places.as_slice());
    }
    least
}

/// With those of functions' bodies.
pub(crate) fn in_functions(
    standings: &Standings,
    found: Option<u32>,
    list: &[DefinedFunction],
) -> Option<u32>
    ensures { result ≡ missing_in standings.now found (function_uses list.now) }
{
    let mut least = found;
    for function in list {
        least = in_stmt(standings, least, &function.function.body);
    }
    least
}
