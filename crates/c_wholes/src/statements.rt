//! Statements made whole (C89 3.6).
ghost use Rattle.std.specs.Prelude.{◌≡◌, length, map, IfOk, OnOk};
ghost use Rattle.c_types.specs.Table.{type_at, AreBelow};
ghost use Rattle.c_meaning.specs.CoreTrees.{IsIn, seen};
ghost use Rattle.c_meaning.specs.StmtTrees.{ArePlacesIn, AreStmtsIn, IsSomeIn, IsStmtIn, filled_of, maybe_seen, place_seen, stmt_of, stmt_seen, stmts_of, stmts_seen};
ghost use Rattle.c_units.specs.Wholes.{some_whole, whole, whole_places as places_whole, whole_stmt, whole_stmts};
ghost use Rattle.c_standings.specs.StandingLists.{meant};
ghost use Rattle.c_wholes.specs.Placing.{ArePlacesPlaced, AreStmtsPlaced, IsHeadPlaced, IsPlaced, IsSomePlaced, IsStmtPlaced};

use crate::copies::place_expr;
use crate::names::name_expr;
use crate::texts::Texts;
use c_meaning::{CoreExpr, CoreForHead, CoreStmt, FilledPlace};
use c_standings::Standings;
use c_types::{TypeId, TypeTable};
use lcc_base::{Items, Memory};
use std::alloc::Global;

/// What makes functions whole: the types, what the symbols stand for, and the texts.
#[derive(Clone, Copy)]
pub(crate) struct Known<'a> {
    pub alloc: Global,
    pub types: &'a TypeTable,
    pub standings: &'a Standings,
    pub texts: &'a Texts,
}

/// An expression of a function, made whole. The types of its copies come behind the locals.
fn whole_value(k: &Known, locals: &mut Items<TypeId>, e: &mut CoreExpr) -> Result<(), Memory>
    requires locals { AreBelow (length k.now.types.now.forms) locals.old }
    requires within { IsIn (length k.now.types.now.forms) e.old }
    ensures { OnOk result (IsPlaced k.now.types.now locals.old locals.new (whole (meant k.now.standings.now) k.now.texts.now (seen (type_at k.now.types.now) e.old)) e.new) }
{
    name_expr(k.alloc, k.standings, k.texts, e)?;
    place_expr(k.alloc, k.types, locals, e)
}

/// An expression, if there is one.
fn whole_some(k: &Known, locals: &mut Items<TypeId>, e: &mut Option<CoreExpr>) -> Result<(), Memory>
    requires locals { AreBelow (length k.now.types.now.forms) locals.old }
    requires within { IsSomeIn (length k.now.types.now.forms) e.old }
    ensures { OnOk result (IsSomePlaced k.now.types.now locals.old locals.new (some_whole (meant k.now.standings.now) k.now.texts.now (maybe_seen (type_at k.now.types.now) e.old)) e.new) }
{
    match e {
        Some(e) => whole_value(k, locals, e),
        None => Ok(()),
    }
}

/// The parts of a `for`'s head.
fn whole_head(k: &Known, locals: &mut Items<TypeId>, head: &mut CoreForHead) -> Result<(), Memory>
    requires locals { AreBelow (length k.now.types.now.forms) locals.old }
    requires first { IsSomeIn (length k.now.types.now.forms) head.old.first }
    requires test { IsSomeIn (length k.now.types.now.forms) head.old.test }
    requires last { IsSomeIn (length k.now.types.now.forms) head.old.last }
    ensures { OnOk result (IsHeadPlaced k.now.types.now locals.old locals.new (some_whole (meant k.now.standings.now) k.now.texts.now) head.old head.new) }
{
    whole_some(k, locals, &mut head.first)?;
    whole_some(k, locals, &mut head.test)?;
    whole_some(k, locals, &mut head.last)
}

/// The places of an object that a function initialises, in order.
fn whole_places(
    k: &Known,
    locals: &mut Items<TypeId>,
    places: &mut Items<FilledPlace>,
) -> Result<(), Memory>
    requires locals { AreBelow (length k.now.types.now.forms) locals.old }
    requires within { ArePlacesIn (length k.now.types.now.forms) (map filled_of places.old) }
    ensures { OnOk result (ArePlacesPlaced k.now.types.now locals.old locals.new (places_whole (meant k.now.standings.now) k.now.texts.now (map (λ p. place_seen (type_at k.now.types.now) (filled_of p)) places.old)) places.new) }
{
    let mut list = std::mem::replace(places, Items::new(k.alloc)).into_vec();
    each_place(k, locals, &mut list)?;
    *places = Items::from_vec(list);
    Ok(())
}

/// Each of the places.
fn each_place(
    k: &Known,
    locals: &mut Items<TypeId>,
    places: &mut [FilledPlace],
) -> Result<(), Memory>
    requires locals { AreBelow (length k.now.types.now.forms) locals.old }
    requires within { ArePlacesIn (length k.now.types.now.forms) (map filled_of places.old) }
    ensures { OnOk result (ArePlacesPlaced k.now.types.now locals.old locals.new (places_whole (meant k.now.standings.now) k.now.texts.now (map (λ p. place_seen (type_at k.now.types.now) (filled_of p)) places.old)) places.new) }
{
    for i in 0..places.len() {
        whole_value(k, locals, &mut places[i].value)?;
    }
    Ok(())
}

/// Statements in order.
#[cycle(statements)]
fn whole_statements(
    k: &Known,
    locals: &mut Items<TypeId>,
    statements: &mut Items<CoreStmt>,
) -> Result<(), Memory>
    requires locals { AreBelow (length k.now.types.now.forms) locals.old }
    requires within { AreStmtsIn (length k.now.types.now.forms) (stmts_of (map stmt_of statements.old)) }
    ensures { OnOk result (AreStmtsPlaced k.now.types.now locals.old locals.new (whole_stmts (meant k.now.standings.now) k.now.texts.now (stmts_seen (type_at k.now.types.now) (stmts_of (map stmt_of statements.old)))) statements.new) }
{
    let mut list = std::mem::replace(statements, Items::new(k.alloc)).into_vec();
    each_statement(k, locals, &mut list)?;
    *statements = Items::from_vec(list);
    Ok(())
}

/// Each of the statements.
#[cycle(statements)]
fn each_statement(
    k: &Known,
    locals: &mut Items<TypeId>,
    list: &mut [CoreStmt],
) -> Result<(), Memory>
    requires locals { AreBelow (length k.now.types.now.forms) locals.old }
    requires within { AreStmtsIn (length k.now.types.now.forms) (stmts_of (map stmt_of list.old)) }
    ensures { OnOk result (AreStmtsPlaced k.now.types.now locals.old locals.new (whole_stmts (meant k.now.standings.now) k.now.texts.now (stmts_seen (type_at k.now.types.now) (stmts_of (map stmt_of list.old)))) list.new) }
{
    for i in 0..list.len() {
        whole_statement(k, locals, &mut list[i])?;
    }
    Ok(())
}

/// A statement of a function, made whole. The types of its copies come behind the locals.
#[cycle(statements)]
pub(crate) fn whole_statement(
    k: &Known,
    locals: &mut Items<TypeId>,
    s: &mut CoreStmt,
) -> Result<(), Memory>
    requires locals { AreBelow (length k.now.types.now.forms) locals.old }
    requires within { IsStmtIn (length k.now.types.now.forms) (stmt_of s.old) }
    ensures { OnOk result (IsStmtPlaced k.now.types.now locals.old locals.new (whole_stmt (meant k.now.standings.now) k.now.texts.now (stmt_seen (type_at k.now.types.now) (stmt_of s.old))) s.new) }
{
    let before = std::mem::replace(s, CoreStmt::Nothing);
    *s = made_whole(k, locals, before)?;
    Ok(())
}

/// The statement that a statement of a function becomes.
#[cycle(statements)]
fn made_whole(k: &Known, locals: &mut Items<TypeId>, s: CoreStmt) -> Result<CoreStmt, Memory>
    requires locals { AreBelow (length k.now.types.now.forms) locals.old }
    requires within { IsStmtIn (length k.now.types.now.forms) (stmt_of s) }
    ensures { IfOk result (λ u. IsStmtPlaced k.now.types.now locals.old locals.new (whole_stmt (meant k.now.standings.now) k.now.texts.now (stmt_seen (type_at k.now.types.now) (stmt_of s))) u) }
{
    match s {
        CoreStmt::Nothing => Ok(CoreStmt::Nothing),
        CoreStmt::Expression(mut e) => {
            whole_value(k, locals, &mut e)?;
            Ok(CoreStmt::Expression(e))
        }
        CoreStmt::Initialise {
            local,
            zero,
            mut places,
        } => {
            whole_places(k, locals, &mut places)?;
            Ok(CoreStmt::Initialise {
                local,
                zero,
                places,
            })
        }
        CoreStmt::Block {
            first,
            locals: count,
            mut statements,
        } => {
            whole_statements(k, locals, &mut statements)?;
            Ok(CoreStmt::Block {
                first,
                locals: count,
                statements,
            })
        }
        CoreStmt::If {
            mut test,
            mut then,
            mut otherwise,
        } => {
            whole_value(k, locals, &mut test)?;
            whole_statement(k, locals, &mut then)?;
            whole_statement(k, locals, &mut otherwise)?;
            Ok(CoreStmt::If {
                test,
                then,
                otherwise,
            })
        }
        CoreStmt::While { mut test, mut body } => {
            whole_value(k, locals, &mut test)?;
            whole_statement(k, locals, &mut body)?;
            Ok(CoreStmt::While { test, body })
        }
        CoreStmt::Do { mut body, mut test } => {
            whole_statement(k, locals, &mut body)?;
            whole_value(k, locals, &mut test)?;
            Ok(CoreStmt::Do { body, test })
        }
        CoreStmt::For { mut head, mut body } => {
            whole_head(k, locals, &mut head)?;
            whole_statement(k, locals, &mut body)?;
            Ok(CoreStmt::For { head, body })
        }
        CoreStmt::Switch {
            mut value,
            cases,
            default,
            mut body,
        } => {
            whole_value(k, locals, &mut value)?;
            whole_statement(k, locals, &mut body)?;
            Ok(CoreStmt::Switch {
                value,
                cases,
                default,
                body,
            })
        }
        CoreStmt::Label(label, mut s) => {
            whole_statement(k, locals, &mut s)?;
            Ok(CoreStmt::Label(label, s))
        }
        CoreStmt::Goto(label) => Ok(CoreStmt::Goto(label)),
        CoreStmt::Break => Ok(CoreStmt::Break),
        CoreStmt::Continue => Ok(CoreStmt::Continue),
        CoreStmt::Return(mut e) => {
            whole_some(k, locals, &mut e)?;
            Ok(CoreStmt::Return(e))
        }
    }
}
