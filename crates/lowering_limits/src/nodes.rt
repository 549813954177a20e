//! How many statements and expressions a function has, with its parameters.
ghost use Rattle.std.specs.Prelude.{◌≡◌, ◌+◌, IfOk, map};
ghost use Rattle.c_types.specs.Table.{Table, types};
ghost use Rattle.c_meaning.specs.CoreTrees.{all_parts, cores_of, parts};
ghost use Rattle.c_meaning.specs.Units.{function_seen};
ghost use Rattle.c_runs.specs.Counts.{node_count};
ghost use Rattle.lowering_limits.specs.Nodes.{all_nodes, nodes_of, place_nodes, some_nodes};

use crate::plus::plus;
use c_meaning::{CoreExpr, CoreFunction, CoreStmt, FilledPlace};
use lcc_base::Memory;

/// The statements and expressions of a function, and its parameters. `Memory` where they are 2^64 or more.

pub(crate) fn function_nodes(f: &CoreFunction) -> Result<u64, Memory>
    ensures { IfOk result (λ n. (t : Table) → n ≡ node_count (function_seen (types t) f.now)) }
{
    of_statement(&f.body, u64::from(f.parameters))
}

/// A number, and the statements and expressions of a statement.
#[cycle(nodes)]
#[tactic(auto, using(crate::proofs::NodeRows::statement_nodes))]
fn of_statement(s: &CoreStmt, before: u64) -> Result<u64, Memory>
    ensures { IfOk result (λ n. n ≡ before + nodes_of s.now) }
{
    let before = plus(before, 1)?;
    match s {
        CoreStmt::Expression(e) => of_expression(e, before),
        CoreStmt::Initialise { places, .. } => of_places(places.as_slice(), before),
        CoreStmt::Block { statements, .. } => of_statements(statements.as_slice(), before),
        CoreStmt::If {
            test,
            then,
            otherwise,
        } => {
            let before = of_expression(test, before)?;
            let before = of_statement(then, before)?;
            of_statement(otherwise, before)
        }
        CoreStmt::While { test, body } | CoreStmt::Do { body, test } => {
            let before = of_expression(test, before)?;
            of_statement(body, before)
        }
        CoreStmt::For { head, body } => {
            let before = of_some(&head.first, before)?;
            let before = of_some(&head.test, before)?;
            let before = of_some(&head.last, before)?;
            of_statement(body, before)
        }
        CoreStmt::Switch { value, body, .. } => {
            let before = of_expression(value, before)?;
            of_statement(body, before)
        }
        CoreStmt::Label(_, inner) => of_statement(inner, before),
        CoreStmt::Return(value) => of_some(value, before),
        CoreStmt::Nothing | CoreStmt::Goto(_) | CoreStmt::Break | CoreStmt::Continue => Ok(before),
    }
}

/// A number, and those of statements in order.
#[cycle(nodes)]
fn of_statements(list: &[CoreStmt], before: u64) -> Result<u64, Memory>
    ensures { IfOk result (λ n. n ≡ before + all_nodes list.now) }
{
    let mut count = before;
    for s in list {
        count = of_statement(s, count)?;
    }
    Ok(count)
}

/// A number, and the expressions that an object begins with.
fn of_places(places: &[FilledPlace], before: u64) -> Result<u64, Memory>
    ensures { IfOk result (λ n. n ≡ before + place_nodes places.now) }
{
    let mut count = before;
    for p in places {
        count = of_expression(&p.value, count)?;
    }
    Ok(count)
}

/// A number, and an expression with its parts, if there is one.
fn of_some(e: &Option<CoreExpr>, before: u64) -> Result<u64, Memory>
    ensures { IfOk result (λ n. n ≡ before + some_nodes e.now) }
{
    match e {
        Some(e) => of_expression(e, before),
        None => Ok(before),
    }
}

/// A number, and an expression with its parts.
#[cycle(parts)]
fn of_expression(c: &CoreExpr, before: u64) -> Result<u64, Memory>
    ensures { IfOk result (λ n. n ≡ before + parts c.now) }
{
    of_expressions(c.kids.as_slice(), plus(before, 1)?)
}

/// A number, and expressions in order with their parts.
#[cycle(parts)]
fn of_expressions(list: &[CoreExpr], before: u64) -> Result<u64, Memory>
    ensures { IfOk result (λ n. n ≡ before + all_parts (cores_of list.now)) }
{
    let mut count = before;
    for c in list {
        count = of_expression(c, count)?;
    }
    Ok(count)
}
