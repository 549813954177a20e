//! A whole expression, whose marks are made first.
ghost use Rattle.std.specs.Prelude.{IfOk, OnOk};
ghost use Rattle.c_lower_expr.specs.Places.{NodeComes};
ghost use Rattle.c_worlds.specs.Programs.{HasNames};
ghost use Rattle.lowered_forms.specs.Expressions.{low_e, low_test};
ghost use Rattle.lowered_forms.specs.Handed.{low_node};
ghost use Rattle.lowered_forms.specs.Lows.{Low};
ghost use Rattle.lowering_acts.specs.Sites.{context_of, tree_in};
ghost use Rattle.lowering_steps.specs.States.{Comes, Shows};

use crate::marks::Marks;
use crate::tests::test;
use crate::values::value;
use c_meaning::CoreExpr;
use lcc_base::Memory;
use lowering_acts::Site;
use lowering_steps::{Jump, Operand, State};

/// The operand that an expression comes to: of a structure its place, and of a void expression the number 0. `Memory` comes where an
/// allocation is refused, where the block or the frame is full or no label is left, and where no checked unit holds the expression; the
/// state is given up then.
pub fn lower_value(site: &Site, e: &CoreExpr, into: &mut State) -> Result<Operand, Memory>
    requires { HasNames site.now.program }
    ensures { (l : Low) → Shows into.old l → IfOk result (λ v. Comes into.new v (low_e (context_of site.now) (tree_in site.now e.now) l)) }
{
    let mut marks = Marks::of(*into.done.allocator(), e)?;
    value(site, e, &mut marks, into)
}

/// A jump where an expression's truth is so. `Memory` comes as for `lower_value`.
pub fn lower_test(site: &Site, e: &CoreExpr, jump: Jump, into: &mut State) -> Result<(), Memory>
    requires { HasNames site.now.program }
    ensures { (l : Low) → Shows into.old l → OnOk result (Shows into.new (low_test (context_of site.now) (tree_in site.now e.now) jump.label jump.when l)) }
{
    let mut marks = Marks::of(*into.done.allocator(), e)?;
    test(site, e, jump, &mut marks, into)
}

/// An expression's node in the block that is open afterwards. `Memory` comes as for `lower_value`.
pub fn lower_node(site: &Site, e: &CoreExpr, into: &mut State) -> Result<u32, Memory>
    requires { HasNames site.now.program }
    ensures { (l : Low) → Shows into.old l → IfOk result (λ n. NodeComes into.new n (low_node (context_of site.now) (tree_in site.now e.now) l)) }
{
    let v = lower_value(site, e, into)?;
    into.block.hand(v)
}
