//! The roots of a program's statements, which print values and return one.
ghost use Rattle.std.specs.Prelude.{◌≡◌, ◌++◌, IfOk, OnOk};
ghost use Rattle.first_form.specs.Expression.{expression_of};
ghost use Rattle.first_form.specs.FirstProgram.{program_of};
ghost use Rattle.first_forest.specs.FirstForest.{print_roots, return_root, roots_of};

use crate::trees::{expression_tree, over_one, putchar_tree};
use first_form::{Expression, FirstProgram};
use lcc_base::{Items, Memory};
use op_forest::{Op, Tree};
use std::alloc::Global;

/// Adds the roots of a statement that prints.
fn add_print(alloc: Global, roots: &mut Items<Tree>, printed: &Expression) -> Result<(), Memory>
    ensures { OnOk result (roots.new ≡ roots.old ++ print_roots (expression_of printed.now)) }
{
    let value = expression_tree(alloc, printed)?;
    let argument = over_one(alloc, Op::Arg, value)?;
    let call = over_one(alloc, Op::Call, putchar_tree(alloc))?;
    roots.push(argument)?;
    roots.push(call)
}

/// The root of the statement that returns.
fn return_tree(alloc: Global, returned: &Expression) -> Result<Tree, Memory>
    ensures { IfOk result (λ t. t ≡ return_root (expression_of returned.now)) }
{
    let value = expression_tree(alloc, returned)?;
    over_one(alloc, Op::Ret, value)
}

/// The roots of a program's statements, in order.
pub(crate) fn program_roots(alloc: Global, program: &FirstProgram) -> Result<Items<Tree>, Memory>
    ensures { IfOk result (λ roots. roots ≡ roots_of (program_of program.now)) }
{
    let mut roots = Items::new(alloc);
    for printed in program.prints.as_slice() {
        add_print(alloc, &mut roots, printed)?;
    }
    let last = return_tree(alloc, &program.result)?;
    roots.push(last)?;
    Ok(roots)
}
