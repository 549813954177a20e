//! What comes of a program whose lowered unit is run.
ghost use Rattle.std.specs.Prelude.{◌≤◌, length};
ghost use Rattle.c_ast.specs.UnitViews.{unit_of};
ghost use Rattle.c_tree_names.specs.Names.{IsGrammatical};

use c_ast::Unit;
use c_check_unit::check_unit;
use c_lower_unit::lower_unit;
use c_meaning::Core;
use c_stmt::unit;
use c_tree_names::denoted_units_are_grammatical;
use forest_runner::{End, Outcome, run};
use input_parts::parted;
use lcc_base::Order;
use std::alloc::{AllocError, Global};

/// The most roots of a run.
const ROOTS: u64 = 100_000_000;

/// What a program prints that is lowered in an order of bytes and run, and behind it a line with how it ends: `exit` and
/// the status; or else why it isn't run, or not to its end.
pub fn told_of(alloc: Global, order: Order, program: &[u8]) -> Result<Vec<u8>, AllocError>
    requires { length program.now ≤ 16777216 }
{
    let (source, input) = parted(program);
    let mut told = Vec::new(alloc);
    denoted_units_are_grammatical();
    match unit(alloc, source) {
        Ok(tree) => tell_unit(alloc, &mut told, order, &tree, input)?,
        Err(_) => tell(&mut told, "no unit")?,
    }
    Ok(told)
}

fn tell_unit(
    alloc: Global,
    into: &mut Vec<u8>,
    order: Order,
    tree: &Unit,
    input: &[u8],
) -> Result<(), AllocError>
    requires { IsGrammatical (unit_of tree.now) }
{
    match check_unit(alloc, tree) {
        Ok(core) => tell_core(alloc, into, order, &core, input),
        Err(_) => tell(into, "refused"),
    }
}

fn tell_core(
    alloc: Global,
    into: &mut Vec<u8>,
    order: Order,
    core: &Core,
    input: &[u8],
) -> Result<(), AllocError> {
    let Ok(lowered) = lower_unit(alloc, core, order) else {
        return tell(into, "not lowered");
    };
    match run(alloc, &lowered, input, ROOTS) {
        Ok(outcome) => tell_outcome(alloc, into, &outcome),
        Err(_) => tell(into, "no memory"),
    }
}

fn tell_outcome(alloc: Global, into: &mut Vec<u8>, outcome: &Outcome) -> Result<(), AllocError> {
    into.extend_from_slice(&outcome.output)?;
    match outcome.end {
        End::Exit(status) => {
            let status = status.cast_signed();
            let line = format!(in alloc; "exit {status}")?;
            tell(into, line.as_str())
        }
        End::Stuck => tell(into, "stuck"),
        End::Deep => tell(into, "too deep"),
        End::OutOfSteps => tell(into, "out of steps"),
    }
}

// A line.
fn tell(into: &mut Vec<u8>, line: &str) -> Result<(), AllocError> {
    into.extend_from_slice(line.as_bytes())?;
    into.push(b'\n')?;
    Ok(())
}
