//! The lowering of programs of the first form to units of one function.
ghost use Rattle.std.specs.Prelude.{◌≡◌, ◌≤◌, ◌*◌, ℕ, List, ◌∷◌, [], length, sum_by, IfOk};
ghost use Rattle.std.specs.List.{AllByRecursion};
ghost use Rattle.first_form.specs.FirstProgram.{program_of};
ghost use Rattle.first_form.specs.FirstForm.{IsFirst, IsExpression};
ghost use Rattle.op_forest.specs.Nodes.{nodes};
ghost use Rattle.forests.specs.WellFormed.{IsWellFormed};
ghost use Rattle.forests.specs.HasRules.{HasRules};
ghost use Rattle.first_forest.specs.FirstForest.{main_of, roots_of, unit_names, unit_of};
ghost use Rattle.first_forest.specs.Size.{program_nodes};
ghost use Rattle.first_forest.specs.Meaning.{IsMeant};

use crate::statements::program_roots;
use first_form::FirstProgram;
use lcc_base::{Bytes, Items, Memory, Order};
use op_forest::{Forest, Frame, Lowered, LoweredFunction};
use std::alloc::Global;

/// The names of each unit, in order.
fn names(alloc: Global) -> Result<Items<Bytes>, Memory>
    ensures { IfOk result (λ names. names ≡ unit_names) }
{
    let mut names = Items::new(alloc);
    names.push(Bytes::copied(alloc, b"main")?)?;
    names.push(Bytes::copied(alloc, b"putchar")?)?;
    Ok(names)
}

/// The program's function, alone.
fn functions(alloc: Global, program: &FirstProgram) -> Result<Items<LoweredFunction>, Memory>
    ensures { IfOk result (λ functions. functions ≡ main_of (program_of program.now) ∷ []) }
{
    let roots = program_roots(alloc, program)?;
    let frame = Frame::new(alloc);
    let mut functions = Items::new(alloc);
    functions.push(LoweredFunction {
        name: 0,
        words: 0,
        forest: Forest { roots, frame },
    })?;
    Ok(functions)
}

/// The unit of a program.
fn unit(alloc: Global, program: &FirstProgram) -> Result<Lowered, Memory>
    ensures { IfOk result (λ u. u ≡ unit_of (program_of program.now)) }
{
    let functions = functions(alloc, program)?;
    let objects = Items::new(alloc);
    let names = names(alloc)?;
    Ok(Lowered::new(functions, objects, names, Order::Big))
}

/// The unit of a program: each `putchar(E)` is the roots ARGI(E) and CALLI(ADDRGP), and the return
/// is the root RETI(E).
pub fn lower(alloc: Global, program: &FirstProgram) -> Result<Lowered, Memory>
    // It is the program's unit.
    ensures unit { IfOk result (λ u. u ≡ unit_of (program_of program.now)) }
    // Its forest is well formed, where the grammar derives the program's expressions.
    ensures well_formed { let p = program_of program.now in AllByRecursion IsExpression p.prints → IsExpression p.result → IsWellFormed (main_of p).forest }
    // Each operator of its roots has a rule.
    ensures ruled { HasRules (roots_of (program_of program.now)) }
    // The roots have no more nodes than a text of the program has bytes, and at most three for each
    // node of the program.
    ensures small { (text : List ℕ) → IsFirst text (program_of program.now) → sum_by nodes (roots_of (program_of program.now)) ≤ length text }
    ensures few { sum_by nodes (roots_of (program_of program.now)) ≤ 3 * program_nodes (program_of program.now) }
    // On each input the unit means what the program does.
    ensures meant { let p = program_of program.now in (input : List ℕ) → AllByRecursion IsExpression p.prints → IsExpression p.result → IsMeant p input }
{
    unit(alloc, program)
}
