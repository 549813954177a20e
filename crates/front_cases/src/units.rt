//! Whole units, checked.
ghost use Rattle.std.specs.Prelude.{◌≤◌, length};
ghost use Rattle.c_ast.specs.UnitViews.{unit_of};
ghost use Rattle.c_tree_names.specs.Names.{IsGrammatical};

use crate::telling::tell_fault;
use c_ast::Unit;
use c_check_unit::check_unit;
use c_stmt::unit;
use c_tree_names::denoted_units_are_grammatical;
use std::alloc::{AllocError, Global};

/// `whole`, or the first fault of a unit.
fn tell_check(alloc: Global, into: &mut String, tree: &Unit) -> Result<(), AllocError>
    requires { IsGrammatical (unit_of tree.now) }
{
    match check_unit(alloc, tree) {
        Ok(_) => write!(into, "whole\n"),
        Err(fault) => tell_fault(into, fault),
    }
}

/// `whole`, or the first fault of a source as a unit, or of the unit that it is.
pub fn tell_checked_unit(alloc: Global, source: &[u8]) -> Result<String, AllocError>
    requires { length source.now ≤ 16777216 }
{
    denoted_units_are_grammatical();
    let mut told = String::new(alloc);
    match unit(alloc, source) {
        Ok(tree) => tell_check(alloc, &mut told, &tree)?,
        Err(fault) => write!(&mut told, "{fault}\n")?,
    }
    Ok(told)
}
