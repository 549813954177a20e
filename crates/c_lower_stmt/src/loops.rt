//! Loops: the body, from its label on; where `continue` goes, what stands between two repetitions; and the end.
ghost use Rattle.std.specs.Prelude.{true, IfOk, OnOk};
ghost use Rattle.c_lower_stmt.specs.Trees.{maybe_in, stmt_in};
ghost use Rattle.c_lower_stmt.specs.Ways.{HasTurns};
ghost use Rattle.c_worlds.specs.Programs.{HasNames};
ghost use Rattle.lowered_forms.specs.Expressions.{low_test};
ghost use Rattle.lowered_forms.specs.Lows.{marked};
ghost use Rattle.lowered_statements.specs.Bodies.{on_low};
ghost use Rattle.lowered_statements.specs.Rows as rows;
ghost use Rattle.lowered_statements.specs.Statements.{low_s};
ghost use Rattle.lowering_acts.specs.Sites.{context_of, tree_in};
ghost use Rattle.statement_steps.specs.Functions.{function_of};
ghost use Rattle.statement_steps.specs.Progresses.{Does, Goes};

use crate::simple::{maybe_drop, maybe_test};
use crate::statements::statement;
use c_lower_expr::lower_test;
use c_meaning::{CoreExpr, CoreForHead, CoreStmt};
use lcc_base::Memory;
use lowering_acts::Site;
use lowering_steps::{Jump, State};
use statement_steps::{Exits, FunctionSite, Progress};

/// The labels of a loop: where its body begins, where `continue` goes, and its end.
#[derive(Clone, Copy, Debug)]
pub(crate) struct Turns {
    pub(crate) top: u32,
    pub(crate) next: u32,
    pub(crate) end: u32,
}

// New ones.
fn new_turns(into: &mut State) -> Result<Turns, Memory>
    ensures { IfOk result (λ x. HasTurns into.old x into.new) }
{
    let top = into.new_label()?;
    let next = into.new_label()?;
    let end = into.new_label()?;
    Ok(Turns { top, next, end })
}

/// `while`: it begins where `continue` goes.
#[cycle(statements)]
pub(crate) fn while_loop(
    f: &FunctionSite,
    test: &CoreExpr,
    body: &CoreStmt,
    into: &mut Progress,
) -> Result<(), Memory>
    requires { HasNames f.now.site.program }
    ensures { let g = function_of f.now in let s = f.now.site in let t = stmt_in s body.now in OnOk result (Does (λ b. rows.while_row g (tree_in s test.now) (λ x b1. low_s g x t b1) b) into.old into.new) }
{
    let turns = new_turns(&mut into.state)?;
    into.state.jump(turns.next)?;
    turn(f, turns, body, into)?;
    go_on(&f.site, test, turns, &mut into.state)
}

/// `do`: it begins with the body.
#[cycle(statements)]
pub(crate) fn do_loop(
    f: &FunctionSite,
    body: &CoreStmt,
    test: &CoreExpr,
    into: &mut Progress,
) -> Result<(), Memory>
    requires { HasNames f.now.site.program }
    ensures { let g = function_of f.now in let s = f.now.site in let t = stmt_in s body.now in OnOk result (Does (λ b. rows.do_row g (tree_in s test.now) (λ x b1. low_s g x t b1) b) into.old into.new) }
{
    let turns = new_turns(&mut into.state)?;
    turn(f, turns, body, into)?;
    go_on(&f.site, test, turns, &mut into.state)
}

/// `for`: it begins behind its last part, at the test.
#[cycle(statements)]
pub(crate) fn for_loop(
    f: &FunctionSite,
    head: &CoreForHead,
    body: &CoreStmt,
    into: &mut Progress,
) -> Result<(), Memory>
    requires { HasNames f.now.site.program }
    ensures { let g = function_of f.now in let s = f.now.site in let t = stmt_in s body.now in OnOk result (Does (λ b. rows.for_row g (maybe_in s head.now.first) (maybe_in s head.now.test) (maybe_in s head.now.last) (λ x b1. low_s g x t b1) b) into.old into.new) }
{
    maybe_drop(f, &head.first, &mut into.state)?;
    let turns = new_turns(&mut into.state)?;
    let here = into.state.new_label()?;
    into.state.jump(here)?;
    turn(f, turns, body, into)?;
    go_on_behind(f, head, here, turns, &mut into.state)
}

// The body from its label on, up to where `continue` goes.
#[cycle(statements)]
fn turn(f: &FunctionSite, turns: Turns, body: &CoreStmt, into: &mut Progress) -> Result<(), Memory>
    requires { HasNames f.now.site.program }
    ensures { let g = function_of f.now in let t = stmt_in f.now.site body.now in OnOk result (Does (λ b. on_low (λ l. marked turns.next l) (low_s g (record { breaks = turns.end; continues = turns.next }) t (on_low (λ l. marked turns.top l) b))) into.old into.new) }
{
    into.state.mark(turns.top)?;
    let exits = Exits {
        breaks: turns.end,
        continues: turns.next,
    };
    statement(f, exits, body, into)?;
    into.state.mark(turns.next)
}

// Another turn where the test holds, and the end.
fn go_on(site: &Site, test: &CoreExpr, turns: Turns, into: &mut State) -> Result<(), Memory>
    requires { HasNames site.now.program }
    ensures { OnOk result (Goes (λ l. marked turns.end (low_test (context_of site.now) (tree_in site.now test.now) turns.top true l)) into.old into.new) }
{
    let jump = Jump {
        when: true,
        label: turns.top,
    };
    lower_test(site, test, jump, into)?;
    into.mark(turns.end)
}

// The same behind the last part of a `for`, with the test at this label.
fn go_on_behind(
    f: &FunctionSite,
    head: &CoreForHead,
    here: u32,
    turns: Turns,
    into: &mut State,
) -> Result<(), Memory>
    requires { HasNames f.now.site.program }
    ensures { let g = function_of f.now in let s = f.now.site in OnOk result (Goes (λ l. marked turns.end (rows.last_and_test g (maybe_in s head.now.test) (maybe_in s head.now.last) here turns.top l)) into.old into.new) }
{
    maybe_drop(f, &head.last, into)?;
    into.mark(here)?;
    maybe_test(f, &head.test, turns.top, into)?;
    into.mark(turns.end)
}
