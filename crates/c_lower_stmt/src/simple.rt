//! Statements without statements in them.
ghost use Rattle.std.specs.Prelude.{OnOk};
ghost use Rattle.c_lower_stmt.specs.Trees.{maybe_in};
ghost use Rattle.c_worlds.specs.Programs.{HasNames};
ghost use Rattle.lowered_statements.specs.Returns.{return_row};
ghost use Rattle.lowered_statements.specs.Rows.{dropped, maybe_dropped, maybe_tested};
ghost use Rattle.lowering_acts.specs.Sites.{tree_in};
ghost use Rattle.statement_steps.specs.Functions.{function_of};
ghost use Rattle.statement_steps.specs.Progresses.{Goes};

use c_lower_expr::{lower_test, lower_value};
use c_meaning::CoreExpr;
use lcc_base::Memory;
use lowering_steps::{Jump, State};
use statement_steps::{FunctionSite, give, give_nothing};

/// An expression whose value isn't used.
pub(crate) fn drop_value(f: &FunctionSite, e: &CoreExpr, into: &mut State) -> Result<(), Memory>
    requires { HasNames f.now.site.program }
    ensures { OnOk result (Goes (λ l. dropped (function_of f.now) (tree_in f.now.site e.now) l) into.old into.new) }
{
    lower_value(&f.site, e, into)?;
    Ok(())
}

/// The same of one that may be left away.
pub(crate) fn maybe_drop(
    f: &FunctionSite,
    e: &Option<CoreExpr>,
    into: &mut State,
) -> Result<(), Memory>
    requires { HasNames f.now.site.program }
    ensures { OnOk result (Goes (λ l. maybe_dropped (function_of f.now) (maybe_in f.now.site e.now) l) into.old into.new) }
{
    match e {
        Some(e) => drop_value(f, e, into),
        None => Ok(()),
    }
}

/// A jump to a label where a test holds, as it does where it is left away.
pub(crate) fn maybe_test(
    f: &FunctionSite,
    e: &Option<CoreExpr>,
    label: u32,
    into: &mut State,
) -> Result<(), Memory>
    requires { HasNames f.now.site.program }
    ensures { OnOk result (Goes (λ l. maybe_tested (function_of f.now) (maybe_in f.now.site e.now) label l) into.old into.new) }
{
    match e {
        Some(e) => {
            let jump = Jump { when: true, label };
            lower_test(&f.site, e, jump, into)
        }
        None => into.jump(label),
    }
}

/// A return.
pub(crate) fn leave(f: &FunctionSite, e: &Option<CoreExpr>, into: &mut State) -> Result<(), Memory>
    requires { HasNames f.now.site.program }
    ensures { OnOk result (Goes (λ l. return_row (function_of f.now) (maybe_in f.now.site e.now) l) into.old into.new) }
{
    match e {
        Some(e) => {
            let value = lower_value(&f.site, e, into)?;
            give(f, value, &mut into.block)
        }
        None => give_nothing(f.gives_zero, &mut into.block),
    }
}
