//! Expressions that are lowered to jumps, and truth as a number.
ghost use Rattle.std.specs.Prelude.{◌≡◌, ◌++◌, IfOk, OnOk};
ghost use Rattle.c_lower_expr.specs.Connected.{connecting, settles};
ghost use Rattle.c_lower_expr.specs.Lowering.{Lowers, LowersTo};
ghost use Rattle.c_lower_expr.specs.Marks.{all_marks, marks as marks_of};
ghost use Rattle.c_meaning.specs.CoreTrees.{kids_of, type_of, what_of};
ghost use Rattle.c_worlds.specs.Programs.{HasNames};
ghost use Rattle.lowered_forms.specs.Expressions.{low_test, parts_of, tested_row};
ghost use Rattle.lowered_forms.specs.Tests.{past as past_by, truth_of};
ghost use Rattle.lowering_acts.specs.Sites.{context_of, tree_in, trees_in, type_in};

use crate::marks::Marks;
use crate::values::{operands, plain};
use c_meaning::{CoreExpr, CoreKind};
use lcc_base::Memory;
use lowering_acts::{Site, compares_signed, is_test, one_part, two_parts};
use lowering_steps::{Jump, Operand, State};
use op_forest::Suffix;

/// A jump where an expression's truth is so.
#[cycle(lowering)]
pub fn test(
    site: &Site,
    e: &CoreExpr,
    jump: Jump,
    marks: &mut Marks,
    into: &mut State,
) -> Result<(), Memory>
    requires { HasNames site.now.program }
    ensures { OnOk result (Lowers (λ l. low_test (context_of site.now) (tree_in site.now e.now) jump.label jump.when l) (marks_of (tree_in site.now e.now)) into.old marks.old into.new marks.new) }
{
    marks.next()?;
    tested(site, e, jump, marks, into)
}

// The same of one whose own mark was used.
#[cycle(lowering)]
fn tested(
    site: &Site,
    e: &CoreExpr,
    jump: Jump,
    marks: &mut Marks,
    into: &mut State,
) -> Result<(), Memory>
    requires { HasNames site.now.program }
    ensures { let kids = trees_in site.now (kids_of e.now) in OnOk result (Lowers (λ l. tested_row (context_of site.now) (what_of e.now) (type_in site.now (type_of e.now)) (parts_of (context_of site.now) kids) jump.label jump.when l) (all_marks kids) into.old marks.old into.new marks.new) }
{
    if is_test(&e.what) {
        by_parts(site, e, jump, marks, into)
    } else {
        let v = plain(site, e, marks, into)?;
        into.block.test(jump, v)?;
        into.end()
    }
}

// The same of one that is a test by itself, by its parts.
#[cycle(lowering)]
fn by_parts(
    site: &Site,
    e: &CoreExpr,
    jump: Jump,
    marks: &mut Marks,
    into: &mut State,
) -> Result<(), Memory>
    requires { HasNames site.now.program }
    ensures { let kids = trees_in site.now (kids_of e.now) in OnOk result (Lowers (λ l. tested_row (context_of site.now) (what_of e.now) (type_in site.now (type_of e.now)) (parts_of (context_of site.now) kids) jump.label jump.when l) (all_marks kids) into.old marks.old into.new marks.new) }
{
    match &e.what {
        CoreKind::Not => {
            let part = one_part(e)?;
            test(site, part, jump.opposite(), marks, into)
        }
        CoreKind::And => connected(site, e, false, jump, marks, into),
        CoreKind::Or => connected(site, e, true, jump, marks, into),
        CoreKind::Compare { operator, signed } => {
            let (a, b) = two_parts(e)?;
            let (v, w) = operands(site, a, b, marks, into)?;
            let is_signed = compares_signed(site, a.of, *signed);
            into.block.compare(*operator, is_signed, jump, v, w)?;
            into.end()
        }
        _ => Err(Memory),
    }
}

// The same of `&&` and `||`. Where the first part's truth is `settling`, it is that of the whole; else the second one's is.
#[cycle(lowering)]
fn connected(
    site: &Site,
    e: &CoreExpr,
    settling: bool,
    jump: Jump,
    marks: &mut Marks,
    into: &mut State,
) -> Result<(), Memory>
    requires names { HasNames site.now.program }
    requires kind { what_of e.now ≡ connecting settling }
    ensures { let kids = trees_in site.now (kids_of e.now) in OnOk result (Lowers (λ l. tested_row (context_of site.now) (what_of e.now) (type_in site.now (type_of e.now)) (parts_of (context_of site.now) kids) jump.label jump.when l) (all_marks kids) into.old marks.old into.new marks.new) }
{
    let (a, b) = two_parts(e)?;
    if settles(settling, jump.when) {
        in_turn(site, a, b, jump, marks, into)
    } else {
        past(site, (a, b), settling, jump, marks, into)
    }
}

// Whether a jump where the whole has this truth is one where the first part settles it.
fn settles(settling: bool, when: bool) -> bool
    ensures { result ≡ settles settling when }
{
    if settling { when } else { !when }
}

// Where the first part's truth is so, or else the second one's.
#[cycle(lowering)]
fn in_turn(
    site: &Site,
    a: &CoreExpr,
    b: &CoreExpr,
    jump: Jump,
    marks: &mut Marks,
    into: &mut State,
) -> Result<(), Memory>
    requires { HasNames site.now.program }
    ensures { let x = tree_in site.now a.now in let y = tree_in site.now b.now in let s = context_of site.now in OnOk result (Lowers (λ l. low_test s y jump.label jump.when (low_test s x jump.label jump.when l)) (marks_of x ++ marks_of y) into.old marks.old into.new marks.new) }
{
    test(site, a, jump, marks, into)?;
    test(site, b, jump, marks, into)
}

// Where the second part's truth is so, which is passed by where the first one's is `settling`.
#[cycle(lowering)]
fn past(
    site: &Site,
    parts: (&CoreExpr, &CoreExpr),
    settling: bool,
    jump: Jump,
    marks: &mut Marks,
    into: &mut State,
) -> Result<(), Memory>
    requires { HasNames site.now.program }
    ensures { let x = tree_in site.now parts.entry.0.now in let y = tree_in site.now parts.entry.1.now in let s = context_of site.now in OnOk result (Lowers (λ l. past_by (λ m l1. low_test s y jump.label jump.when (low_test s x m settling l1)) l) (marks_of x ++ marks_of y) into.old marks.old into.new marks.new) }
{
    let label = into.new_label()?;
    let over = Jump {
        when: settling,
        label,
    };
    test(site, parts.0, over, marks, into)?;
    test(site, parts.1, jump, marks, into)?;
    into.mark(label)
}

/// Truth as a number: 1 in a new slot where an expression that is a test by itself holds, else 0. Its own mark was used.
#[cycle(lowering)]
pub fn truth(
    site: &Site,
    e: &CoreExpr,
    marks: &mut Marks,
    into: &mut State,
) -> Result<Operand, Memory>
    requires { HasNames site.now.program }
    ensures { let kids = trees_in site.now (kids_of e.now) in IfOk result (λ v. LowersTo (λ l. truth_of (λ n when l1. tested_row (context_of site.now) (what_of e.now) (type_in site.now (type_of e.now)) (parts_of (context_of site.now) kids) n when l1) l) (all_marks kids) into.old marks.old v into.new marks.new) }
{
    let offset = into.new_slot()?;
    let label = into.new_label()?;
    into.block.store_in(offset, Operand::number(true, 0))?;
    let over = Jump { when: false, label };
    by_parts(site, e, over, marks, into)?;
    into.block.store_in(offset, Operand::number(true, 1))?;
    into.mark(label)?;
    into.block.slot_read(Suffix::I, offset)
}
