//! Statements that choose between ways: by a test, or by a number.
ghost use Rattle.std.specs.Prelude.{◌≡◌, ℕ, suc, IfOk, OnOk};
ghost use Rattle.c_lower_stmt.specs.Trees.{stmt_in};
ghost use Rattle.c_lower_stmt.specs.Ways.{KeepsValue};
ghost use Rattle.c_types.specs.CType.{CType};
ghost use Rattle.c_worlds.specs.Programs.{HasNames};
ghost use Rattle.lowered_forms.specs.Lows.{with_label};
ghost use Rattle.lowered_statements.specs.Bodies.{on_low};
ghost use Rattle.lowered_statements.specs.Rows as rows;
ghost use Rattle.lowered_statements.specs.Statements.{is_nothing as is_nothing_tree, low_s};
ghost use Rattle.lowering_acts.specs.Sites.{context_of, tree_in};
ghost use Rattle.statement_steps.specs.Functions.{function_of};
ghost use Rattle.statement_steps.specs.Numbering.{tree_of};
ghost use Rattle.statement_steps.specs.Progresses.{Does, exits_of};

use crate::statements::statement;
use c_lower_expr::{lower_test, lower_value};
use c_meaning::{CoreCase, CoreExpr, CoreStmt};
use c_worlds::scalar;
use lcc_base::Memory;
use lowering_acts::Site;
use lowering_steps::{Jump, State};
use statement_steps::{Choice, Exits, FunctionSite, Progress, label_or, search_cases};

/// `if`: the ways are a statement where the test holds, and one where it doesn't.
#[cycle(statements)]
pub(crate) fn choice(
    f: &FunctionSite,
    exits: Exits,
    test: &CoreExpr,
    ways: (&CoreStmt, &CoreStmt),
    into: &mut Progress,
) -> Result<(), Memory>
    requires { HasNames f.now.site.program }
    ensures { let g = function_of f.now in let s = f.now.site in let y = exits_of exits in let t = stmt_in s ways.entry.0.now in let u = stmt_in s ways.entry.1.now in OnOk result (Does (λ b. rows.choice_by (is_nothing_tree u) g (tree_in s test.now) (λ b1. low_s g y t b1) (λ b1. low_s g y u b1) b) into.old into.new) }
{
    if is_nothing(ways.1) {
        one_way(f, exits, test, ways.0, into)
    } else {
        two_ways(f, exits, test, ways, into)
    }
}

// Whether a statement is the empty one.
fn is_nothing(s: &CoreStmt) -> bool
    ensures { (known : ℕ → CType) → result ≡ is_nothing_tree (tree_of known s.now) }
{
    matches!(s, CoreStmt::Nothing)
}

// Where the test doesn't hold, nothing is done.
#[cycle(statements)]
fn one_way(
    f: &FunctionSite,
    exits: Exits,
    test: &CoreExpr,
    then: &CoreStmt,
    into: &mut Progress,
) -> Result<(), Memory>
    requires { HasNames f.now.site.program }
    ensures { let g = function_of f.now in let s = f.now.site in let y = exits_of exits in let t = stmt_in s then.now in OnOk result (Does (λ b. rows.one_way g (tree_in s test.now) (λ b1. low_s g y t b1) b.low.labels (on_low (λ l. with_label l) b)) into.old into.new) }
{
    let end = into.state.new_label()?;
    let over = Jump {
        when: false,
        label: end,
    };
    lower_test(&f.site, test, over, &mut into.state)?;
    statement(f, exits, then, into)?;
    into.state.mark(end)
}

#[cycle(statements)]
fn two_ways(
    f: &FunctionSite,
    exits: Exits,
    test: &CoreExpr,
    ways: (&CoreStmt, &CoreStmt),
    into: &mut Progress,
) -> Result<(), Memory>
    requires { HasNames f.now.site.program }
    ensures { let g = function_of f.now in let s = f.now.site in let y = exits_of exits in let t = stmt_in s ways.entry.0.now in let u = stmt_in s ways.entry.1.now in OnOk result (Does (λ b. rows.two_ways g (tree_in s test.now) (λ b1. low_s g y t b1) (λ b1. low_s g y u b1) b.low.labels (suc b.low.labels) (on_low (λ l. with_label (with_label l)) b)) into.old into.new) }
{
    let second = into.state.new_label()?;
    let end = into.state.new_label()?;
    let over = Jump {
        when: false,
        label: second,
    };
    lower_test(&f.site, test, over, &mut into.state)?;
    statement(f, exits, ways.0, into)?;
    into.state.jump(end)?;
    into.state.mark(second)?;
    statement(f, exits, ways.1, into)?;
    into.state.mark(end)
}

/// `switch`, with its cases and the default's label: its value is in a slot, by which the search goes on into the body.
#[cycle(statements)]
pub(crate) fn switch(
    f: &FunctionSite,
    exits: Exits,
    value: &CoreExpr,
    cases: (&[CoreCase], Option<u32>),
    body: &CoreStmt,
    into: &mut Progress,
) -> Result<(), Memory>
    requires { HasNames f.now.site.program }
    ensures { let g = function_of f.now in let s = f.now.site in let y = exits_of exits in let t = stmt_in s body.now in OnOk result (Does (λ b. rows.switch_row g (tree_in s value.now) cases.entry.0.now cases.entry.1 (λ x b1. low_s g x t b1) y b) into.old into.new) }
{
    let signed = scalar(f.site.program.core.types(), value.of).signed;
    let (slot, end) = keep_value(&f.site, value, &mut into.state)?;
    let default = label_or(f, end, cases.1)?;
    let choice = Choice {
        slot,
        signed,
        default,
    };
    search_cases(f, choice, cases.0, into)?;
    let inside = Exits {
        breaks: end,
        continues: exits.continues,
    };
    statement(f, inside, body, into)?;
    into.state.mark(end)
}

// A switch's value is kept in a new slot, and there is a new label for its end.
fn keep_value(site: &Site, value: &CoreExpr, into: &mut State) -> Result<(i32, u32), Memory>
    requires { HasNames site.now.program }
    ensures { IfOk result (λ r. KeepsValue (context_of site.now) (tree_in site.now value.now) into.old r.0 r.1 into.new) }
{
    let value = lower_value(site, value, into)?;
    let slot = into.new_slot()?;
    into.block.store_in(slot, value)?;
    let end = into.new_label()?;
    Ok((slot, end))
}
