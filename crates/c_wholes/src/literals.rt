//! The string literals of functions and objects (C89 3.1.4).
ghost use Rattle.std.specs.Prelude.{◌≡◌, map, OnOk};
ghost use Rattle.c_types.specs.Table.{Table, types};
ghost use Rattle.c_meaning.specs.Units.{function_seen, object_seen};
ghost use Rattle.c_units.specs.Wholes.{once, place_literals, stmt_literals};
ghost use Rattle.c_wholes.specs.Literals.{texts_of_expr, texts_of_exprs, texts_of_places, texts_of_some, texts_of_stmt, texts_of_stmts};

use crate::texts::Texts;
use c_meaning::{CoreExpr, CoreFunction, CoreKind, CoreObject, CoreStmt, FilledPlace};
use lcc_base::Memory;

/// Notes the string literals of a function.
pub fn note_function(texts: &mut Texts, f: &CoreFunction) -> Result<(), Memory>
    ensures { OnOk result ((t : Table) → texts.new ≡ once texts.old (stmt_literals (function_seen (types t) f.now).body)) }
{
    note_statement(texts, &f.body)
}

/// Notes the string literals that an object begins with.
pub fn note_object(texts: &mut Texts, o: &CoreObject) -> Result<(), Memory>
    ensures { OnOk result ((t : Table) → texts.new ≡ once texts.old (place_literals (object_seen (types t) o.now).places)) }
{
    note_places(texts, o.places.as_slice())
}

/// Notes those of an expression.
#[cycle(literals)]
fn note_expr(texts: &mut Texts, c: &CoreExpr) -> Result<(), Memory>
    ensures { OnOk result (texts.new ≡ once texts.old (texts_of_expr c.now)) }
{
    match &c.what {
        CoreKind::Literal(text) => texts.note(text.as_slice()),
        _ => note_exprs(texts, c.kids.as_slice()),
    }
}

/// Notes those of expressions in order.
#[cycle(literals)]
fn note_exprs(texts: &mut Texts, list: &[CoreExpr]) -> Result<(), Memory>
    ensures { OnOk result (texts.new ≡ once texts.old (texts_of_exprs list.now)) }
{
    for c in list {
        note_expr(texts, c)?;
    }
    Ok(())
}

/// Notes those of an expression, if there is one.
fn note_some(texts: &mut Texts, e: &Option<CoreExpr>) -> Result<(), Memory>
    ensures { OnOk result (texts.new ≡ once texts.old (texts_of_some e.now)) }
{
    match e {
        Some(e) => note_expr(texts, e),
        None => Ok(()),
    }
}

/// Notes those of places of an object in order.
fn note_places(texts: &mut Texts, places: &[FilledPlace]) -> Result<(), Memory>
    ensures { OnOk result (texts.new ≡ once texts.old (texts_of_places places.now)) }
{
    for place in places {
        note_expr(texts, &place.value)?;
    }
    Ok(())
}

/// Notes those of statements in order.
#[cycle(statement_literals)]
fn note_statements(texts: &mut Texts, list: &[CoreStmt]) -> Result<(), Memory>
    ensures { OnOk result (texts.new ≡ once texts.old (texts_of_stmts list.now)) }
{
    for s in list {
        note_statement(texts, s)?;
    }
    Ok(())
}

/// Notes those of a statement.
#[cycle(statement_literals)]
fn note_statement(texts: &mut Texts, s: &CoreStmt) -> Result<(), Memory>
    ensures { OnOk result (texts.new ≡ once texts.old (texts_of_stmt s.now)) }
{
    match s {
        CoreStmt::Expression(e) => note_expr(texts, e),
        CoreStmt::Initialise { places, .. } => note_places(texts, places.as_slice()),
        CoreStmt::Block { statements, .. } => note_statements(texts, statements.as_slice()),
        CoreStmt::If {
            test,
            then,
            otherwise,
        } => {
            note_expr(texts, test)?;
            note_statement(texts, then)?;
            note_statement(texts, otherwise)
        }
        CoreStmt::While { test, body } => {
            note_expr(texts, test)?;
            note_statement(texts, body)
        }
        CoreStmt::Do { body, test } => {
            note_statement(texts, body)?;
            note_expr(texts, test)
        }
        CoreStmt::For { head, body } => {
            note_some(texts, &head.first)?;
            note_some(texts, &head.test)?;
            note_some(texts, &head.last)?;
            note_statement(texts, body)
        }
        CoreStmt::Switch { value, body, .. } => {
            note_expr(texts, value)?;
            note_statement(texts, body)
        }
        CoreStmt::Label(_, s) => note_statement(texts, s),
        CoreStmt::Return(e) => note_some(texts, e),
        CoreStmt::Nothing | CoreStmt::Goto(_) | CoreStmt::Break | CoreStmt::Continue => Ok(()),
    }
}
