//! Conditional expressions.
ghost use Rattle.std.specs.Prelude.{◌≡◌, IfOk, OnOk};
ghost use Rattle.c_lower_expr.specs.Lowering.{Lowers, LowersTo};
ghost use Rattle.c_lower_expr.specs.Marks.{all_marks, marks as marks_of};
ghost use Rattle.c_meaning.specs.CoreTrees.{kids_of, type_of, what_of};
ghost use Rattle.c_worlds.specs.Programs.{HasNames};
ghost use Rattle.lowered_forms.specs.Conditionals.{kept_in};
ghost use Rattle.lowered_forms.specs.Expressions.{low_e, parts_of, plain_row};
ghost use Rattle.lowering_acts.specs.Forms.{form_of};
ghost use Rattle.lowering_acts.specs.Sites.{context_of, tree_in, trees_in, type_in};
ghost use Rattle.lowering_acts.specs.Sorted.{sorted};
ghost use Rattle.lowering_acts.specs.declared.forms.Form.TheVariants as form;

use crate::marks::Marks;
use crate::tests::test;
use crate::values::value;
use c_meaning::CoreExpr;
use lcc_base::Memory;
use lowering_acts::{Site, Sort, keep_in, sort_of, sort_read, three_parts};
use lowering_steps::{Jump, Operand, State};

/// `a ? b : c`: both ways store the value, if there is one, in one slot.
#[cycle(lowering)]
pub fn conditional(
    site: &Site,
    e: &CoreExpr,
    marks: &mut Marks,
    into: &mut State,
) -> Result<Operand, Memory>
    requires names { HasNames site.now.program }
    requires form { form_of (what_of e.now) ≡ form.Conditional }
    ensures { let kids = trees_in site.now (kids_of e.now) in IfOk result (λ v. LowersTo (λ l. plain_row (context_of site.now) (what_of e.now) (type_in site.now (type_of e.now)) (parts_of (context_of site.now) kids) l) (all_marks kids) into.old marks.old v into.new marks.new) }
{
    let (a, b, c) = three_parts(e)?;
    let sort = sort_of(site, e.of);
    let offset = into.new_slot()?;
    let second = into.new_label()?;
    let end = into.new_label()?;
    let over = Jump {
        when: false,
        label: second,
    };
    test(site, a, over, marks, into)?;
    way(site, b, (sort, offset), marks, into)?;
    into.jump(end)?;
    into.mark(second)?;
    way(site, c, (sort, offset), marks, into)?;
    into.mark(end)?;
    sort_read(&mut into.block, sort, offset)
}

// The value of one way is kept in the slot of both.
#[cycle(lowering)]
fn way(
    site: &Site,
    e: &CoreExpr,
    place: (Sort, i32),
    marks: &mut Marks,
    into: &mut State,
) -> Result<(), Memory>
    requires { HasNames site.now.program }
    ensures { OnOk result (Lowers (λ l. kept_in (sorted place.0) place.1 (low_e (context_of site.now) (tree_in site.now e.now) l)) (marks_of (tree_in site.now e.now)) into.old marks.old into.new marks.new) }
{
    let v = value(site, e, marks, into)?;
    keep_in(&mut into.block, place.0, place.1, v)
}
