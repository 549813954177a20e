//! Expressions that are lowered to operands.
ghost use Rattle.std.specs.Prelude.{◌≡◌, IfOk};
ghost use Rattle.c_lower_expr.specs.Lowering.{LowersTo};
ghost use Rattle.c_lower_expr.specs.Marks.{all_marks, marks as marks_of};
ghost use Rattle.c_lower_expr.specs.Pairs.{LowersBoth};
ghost use Rattle.c_meaning.specs.CoreTrees.{kids_of, type_of, what_of};
ghost use Rattle.c_worlds.specs.Programs.{HasNames};
ghost use Rattle.lowered_forms.specs.Expressions.{low_e, parts_of, plain_row};
ghost use Rattle.lowering_acts.specs.Forms.{form_of};
ghost use Rattle.lowering_acts.specs.Sites.{context_of, tree_in, trees_in, type_in};
ghost use Rattle.lowering_acts.specs.declared.forms.Form.TheVariants as form;

use crate::calls::call;
use crate::marks::Marks;
use crate::tests::truth;
use crate::ways::conditional;
use c_meaning::CoreExpr;
use lcc_base::Memory;
use lowering_acts::{
    Form, Site, binary_act, first_part, is_test, leaf, no_part, one_part, two_parts, unary_act,
};
use lowering_steps::{Operand, State};

/// The operand that an expression comes to.
#[cycle(lowering)]
pub fn value(
    site: &Site,
    e: &CoreExpr,
    marks: &mut Marks,
    into: &mut State,
) -> Result<Operand, Memory>
    requires { HasNames site.now.program }
    ensures { IfOk result (λ v. LowersTo (λ l. low_e (context_of site.now) (tree_in site.now e.now) l) (marks_of (tree_in site.now e.now)) into.old marks.old v into.new marks.new) }
{
    marks.next()?;
    if is_test(&e.what) {
        truth(site, e, marks, into)
    } else {
        plain(site, e, marks, into)
    }
}

/// The same of one that is no test by itself, whose own mark was used.
#[cycle(lowering)]
pub fn plain(
    site: &Site,
    e: &CoreExpr,
    marks: &mut Marks,
    into: &mut State,
) -> Result<Operand, Memory>
    requires { HasNames site.now.program }
    ensures { let kids = trees_in site.now (kids_of e.now) in IfOk result (λ v. LowersTo (λ l. plain_row (context_of site.now) (what_of e.now) (type_in site.now (type_of e.now)) (parts_of (context_of site.now) kids) l) (all_marks kids) into.old marks.old v into.new marks.new) }
{
    match Form::of(&e.what) {
        Form::Leaf => without_parts(site, e, marks, into),
        Form::One => with_one(site, e, marks, into),
        Form::Two => with_two(site, e, marks, into),
        Form::Conditional => conditional(site, e, marks, into),
        Form::Comma => comma(site, e, marks, into),
        Form::Call(copies) => call(site, e, copies, marks, into),
        Form::Other => Err(Memory),
    }
}

// One without parts.
fn without_parts(
    site: &Site,
    e: &CoreExpr,
    marks: &Marks,
    into: &mut State,
) -> Result<Operand, Memory>
    requires { HasNames site.now.program }
    ensures { let kids = trees_in site.now (kids_of e.now) in IfOk result (λ v. LowersTo (λ l. plain_row (context_of site.now) (what_of e.now) (type_in site.now (type_of e.now)) (parts_of (context_of site.now) kids) l) (all_marks kids) into.old marks.now v into.new marks.now) }
{
    no_part(e)?;
    leaf(site, &mut into.block, e)
}

// One with one part.
#[cycle(lowering)]
fn with_one(
    site: &Site,
    e: &CoreExpr,
    marks: &mut Marks,
    into: &mut State,
) -> Result<Operand, Memory>
    requires names { HasNames site.now.program }
    requires form { form_of (what_of e.now) ≡ form.One }
    ensures { let kids = trees_in site.now (kids_of e.now) in IfOk result (λ v. LowersTo (λ l. plain_row (context_of site.now) (what_of e.now) (type_in site.now (type_of e.now)) (parts_of (context_of site.now) kids) l) (all_marks kids) into.old marks.old v into.new marks.new) }
{
    let part = one_part(e)?;
    let v = value(site, part, marks, into)?;
    unary_act(site, &mut into.block, e, part, v)
}

// One with two parts, which are both evaluated.
#[cycle(lowering)]
fn with_two(
    site: &Site,
    e: &CoreExpr,
    marks: &mut Marks,
    into: &mut State,
) -> Result<Operand, Memory>
    requires names { HasNames site.now.program }
    requires form { form_of (what_of e.now) ≡ form.Two }
    ensures { let kids = trees_in site.now (kids_of e.now) in IfOk result (λ v. LowersTo (λ l. plain_row (context_of site.now) (what_of e.now) (type_in site.now (type_of e.now)) (parts_of (context_of site.now) kids) l) (all_marks kids) into.old marks.old v into.new marks.new) }
{
    let (a, b) = two_parts(e)?;
    let both = operands(site, a, b, marks, into)?;
    binary_act(site, &mut into.block, e, a, both)
}

/// The operands of two parts, from left to right. The first one waits for the second.
#[cycle(lowering)]
pub fn operands(
    site: &Site,
    a: &CoreExpr,
    b: &CoreExpr,
    marks: &mut Marks,
    into: &mut State,
) -> Result<(Operand, Operand), Memory>
    requires { HasNames site.now.program }
    ensures { IfOk result (λ r. LowersBoth (context_of site.now) (tree_in site.now a.now) (tree_in site.now b.now) into.old marks.old r.0 r.1 into.new marks.new) }
{
    let first = value(site, a, marks, into)?;
    let is_straight = marks.first()?;
    let kept = into.hold(is_straight, first)?;
    let second = value(site, b, marks, into)?;
    Ok((kept, second))
}

// Parts in order, of which the last gives the value.
#[cycle(lowering)]
fn comma(site: &Site, e: &CoreExpr, marks: &mut Marks, into: &mut State) -> Result<Operand, Memory>
    requires names { HasNames site.now.program }
    requires form { form_of (what_of e.now) ≡ form.Comma }
    ensures { let kids = trees_in site.now (kids_of e.now) in IfOk result (λ v. LowersTo (λ l. plain_row (context_of site.now) (what_of e.now) (type_in site.now (type_of e.now)) (parts_of (context_of site.now) kids) l) (all_marks kids) into.old marks.old v into.new marks.new) }
{
    let (first, rest) = first_part(e)?;
    let mut last = value(site, first, marks, into)?;
    for part in rest {
        last = value(site, part, marks, into)?;
    }
    Ok(last)
}
