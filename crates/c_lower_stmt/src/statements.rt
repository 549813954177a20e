//! The lowering of statements: a row for each kind.
ghost use Rattle.std.specs.Prelude.{OnOk};
ghost use Rattle.c_lower_stmt.specs.Trees.{stmt_in, stmts_in};
ghost use Rattle.c_worlds.specs.Programs.{HasNames};
ghost use Rattle.lowered_forms.specs.Lows.{marked};
ghost use Rattle.lowered_statements.specs.Bodies.{on_low};
ghost use Rattle.lowered_statements.specs.Functions.{label_at};
ghost use Rattle.lowered_statements.specs.Statements.{low_all, low_s};
ghost use Rattle.statement_steps.specs.Functions.{function_of};
ghost use Rattle.statement_steps.specs.Progresses.{Does, exits_of};

use crate::choices::{choice, switch};
use crate::initialising::initialise;
use crate::loops::{do_loop, for_loop, while_loop};
use crate::simple::{drop_value, leave};
use c_meaning::CoreStmt;
use lcc_base::Memory;
use statement_steps::{Exits, FunctionSite, Progress};

/// A statement, where `break` and `continue` go so.
#[cycle(statements)]
pub(crate) fn statement(
    f: &FunctionSite,
    exits: Exits,
    s: &CoreStmt,
    into: &mut Progress,
) -> Result<(), Memory>
    requires { HasNames f.now.site.program }
    ensures { OnOk result (Does (λ b. low_s (function_of f.now) (exits_of exits) (stmt_in f.now.site s.now) b) into.old into.new) }
{
    match s {
        CoreStmt::Nothing => Ok(()),
        CoreStmt::Expression(e) => drop_value(f, e, &mut into.state),
        CoreStmt::Initialise {
            local,
            zero,
            places,
        } => initialise(f, *local, *zero, places.as_slice(), &mut into.state),
        CoreStmt::Block { statements, .. } => all(f, exits, statements.as_slice(), into),
        CoreStmt::If {
            test,
            then,
            otherwise,
        } => choice(f, exits, test, (then, otherwise), into),
        CoreStmt::While { test, body } => while_loop(f, test, body, into),
        CoreStmt::Do { body, test } => do_loop(f, body, test, into),
        CoreStmt::For { head, body } => for_loop(f, head, body, into),
        CoreStmt::Switch {
            value,
            cases,
            default,
            body,
        } => switch(f, exits, value, (cases.as_slice(), *default), body, into),
        CoreStmt::Label(label, inner) => labelled(f, exits, *label, inner, into),
        CoreStmt::Goto(label) => {
            let label = f.labels.number(*label)?;
            into.state.jump(label)
        }
        CoreStmt::Break => into.state.jump(exits.breaks),
        CoreStmt::Continue => into.state.jump(exits.continues),
        CoreStmt::Return(e) => leave(f, e, &mut into.state),
    }
}

// Statements in order.
#[cycle(statements)]
fn all(f: &FunctionSite, exits: Exits, list: &[CoreStmt], into: &mut Progress) -> Result<(), Memory>
    requires { HasNames f.now.site.program }
    ensures { OnOk result (Does (λ b. low_all (function_of f.now) (exits_of exits) (stmts_in f.now.site list.now) b) into.old into.new) }
{
    for s in list {
        statement(f, exits, s, into)?;
    }
    Ok(())
}

// A statement behind a label.
#[cycle(statements)]
fn labelled(
    f: &FunctionSite,
    exits: Exits,
    label: u32,
    s: &CoreStmt,
    into: &mut Progress,
) -> Result<(), Memory>
    requires { HasNames f.now.site.program }
    ensures { let g = function_of f.now in OnOk result (Does (λ b. low_s g (exits_of exits) (stmt_in f.now.site s.now) (on_low (λ l. marked (label_at g label) l) b)) into.old into.new) }
{
    let label = f.labels.number(label)?;
    into.state.mark(label)?;
    statement(f, exits, s, into)
}
