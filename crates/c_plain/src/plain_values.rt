//! What expressions give that call nothing.
ghost use Rattle.std.specs.Prelude.{◌≡◌, true, false, ℕ};
ghost use Rattle.c_acts.specs.Shapes.{shape_of};
ghost use Rattle.c_acts.specs.Tests.{truth_of};
ghost use Rattle.c_acts.specs.declared.shape.Shape.TheVariants as shaped;
ghost use Rattle.c_meaning.specs.CoreTrees.{what_of};
ghost use Rattle.c_plain.specs.Plain.{is_plain, settles, used};
ghost use Rattle.c_runs.specs.Expressions.{asked as asked_part, eval, test};
ghost use Rattle.c_worlds.specs.Programs.{Calls, HasNames, setting_of, tree};
ghost use Rattle.c_worlds.specs.Shown.{Comes, Gets, StaysBelow};

use crate::parts::{first_part, one_part, stray, three_parts, two_parts};
use c_acts::{Parts, Shape, asked, binary_act, leaf, truth, unary_act};
use c_meaning::{CoreExpr, CoreKind};
use c_worlds::{Program, Stop, World};
use lcc_base::Cause;
use objects::Value;

/// What an expression gives that calls nothing. `Undefined` has the cause and the line of what can't go on; after
/// `Memory` nothing is said of the objects' bytes.
#[cycle(plain)]
pub fn plain_value(
    program: &Program,
    world: &mut World,
    e: &CoreExpr,
) -> Result<Option<Value>, Stop>
    requires names { HasNames program.now }
    requires plain { is_plain e.now ≡ true }
    ensures comes { (calls : Calls) → Comes (λ k w. eval (setting_of program.now calls) (tree program.now e.now) k w) world.old world.new result }
    ensures stays { StaysBelow world.old world.new }
{
    match Shape::of(&e.what) {
        Shape::Leaf => leaf_value(program, world, e),
        Shape::Unary => unary_value(program, world, e),
        Shape::Binary => binary_value(program, world, e),
        Shape::Logical => logical_value(program, world, e),
        Shape::Conditional => conditional_value(program, world, e),
        Shape::Comma => comma_value(program, world, e),
        Shape::Dropped => dropped_value(program, world, e),
        Shape::Call => Err(stray(e)),
    }
}

/// What it gives where it is used, as a checked unit's is: `NoResult` at line 0 comes where there is nothing, since only a
/// conversion to void has no value where nothing is called.
#[cycle(plain)]
pub fn plain_used(program: &Program, world: &mut World, e: &CoreExpr) -> Result<Value, Stop>
    requires names { HasNames program.now }
    requires plain { is_plain e.now ≡ true }
    ensures comes { (calls : Calls) → Gets (λ k w. used (eval (setting_of program.now calls) (tree program.now e.now) k w)) world.old world.new result }
    ensures stays { StaysBelow world.old world.new }
{
    match plain_value(program, world, e)? {
        Some(value) => Ok(value),
        None => Err(Stop::Undefined(Cause::NoResult, 0)),
    }
}

/// Whether such an expression holds as the test of a statement.
pub fn plain_test(program: &Program, world: &mut World, e: &CoreExpr) -> Result<bool, Stop>
    requires names { HasNames program.now }
    requires plain { is_plain e.now ≡ true }
    ensures comes { (calls : Calls) → Gets (λ k w. test (setting_of program.now calls) (tree program.now e.now) k w) world.old world.new (truth_of result) }
    ensures stays { StaysBelow world.old world.new }
{
    tested(program, world, e, e.line)
}

/// Whether it holds as a test that has this line.
#[cycle(plain)]
fn tested(program: &Program, world: &mut World, e: &CoreExpr, line: u32) -> Result<bool, Stop>
    requires names { HasNames program.now }
    requires plain { is_plain e.now ≡ true }
    ensures comes { (calls : Calls) → Gets (λ k w. asked_part (record { tree = tree program.now e.now; does = λ k1 w1. eval (setting_of program.now calls) (tree program.now e.now) k1 w1 }) line k w) world.old world.new (truth_of result) }
    ensures stays { StaysBelow world.old world.new }
{
    let value = plain_used(program, world, e)?;
    asked(program, world, e, value, line)
}

/// An expression without parts.
fn leaf_value(program: &Program, world: &mut World, e: &CoreExpr) -> Result<Option<Value>, Stop>
    requires names { HasNames program.now }
    requires shape { shape_of (what_of e.now) ≡ shaped.Leaf }
    ensures comes { (calls : Calls) → Comes (λ k w. eval (setting_of program.now calls) (tree program.now e.now) k w) world.old world.new result }
    ensures stays { StaysBelow world.old world.new }
{
    match first_part(e) {
        None => leaf(program, world, e),
        Some(_) => Err(stray(e)),
    }
}

/// One whose part's value isn't used: it has none.
#[cycle(plain)]
fn dropped_value(program: &Program, world: &mut World, e: &CoreExpr) -> Result<Option<Value>, Stop>
    requires names { HasNames program.now }
    requires plain { is_plain e.now ≡ true }
    requires shape { shape_of (what_of e.now) ≡ shaped.Dropped }
    ensures comes { (calls : Calls) → Comes (λ k w. eval (setting_of program.now calls) (tree program.now e.now) k w) world.old world.new result }
    ensures stays { StaysBelow world.old world.new }
{
    let Some(part) = one_part(e) else {
        return Err(stray(e));
    };
    plain_value(program, world, part)?;
    Ok(None)
}

/// One with one part.
#[cycle(plain)]
fn unary_value(program: &Program, world: &mut World, e: &CoreExpr) -> Result<Option<Value>, Stop>
    requires names { HasNames program.now }
    requires plain { is_plain e.now ≡ true }
    requires shape { shape_of (what_of e.now) ≡ shaped.Unary }
    ensures comes { (calls : Calls) → Comes (λ k w. eval (setting_of program.now calls) (tree program.now e.now) k w) world.old world.new result }
    ensures stays { StaysBelow world.old world.new }
{
    let Some(part) = one_part(e) else {
        return Err(stray(e));
    };
    let value = plain_used(program, world, part)?;
    unary_act(program, world, e, part, value)
}

/// One with two parts.
#[cycle(plain)]
fn binary_value(program: &Program, world: &mut World, e: &CoreExpr) -> Result<Option<Value>, Stop>
    requires names { HasNames program.now }
    requires plain { is_plain e.now ≡ true }
    requires shape { shape_of (what_of e.now) ≡ shaped.Binary }
    ensures comes { (calls : Calls) → Comes (λ k w. eval (setting_of program.now calls) (tree program.now e.now) k w) world.old world.new result }
    ensures stays { StaysBelow world.old world.new }
{
    let Some((left, right)) = two_parts(e) else {
        return Err(stray(e));
    };
    let left_value = plain_used(program, world, left)?;
    let right_value = plain_used(program, world, right)?;
    let parts = Parts {
        left,
        left_value,
        right,
        right_value,
    };
    binary_act(program, world, e, &parts)
}

/// `&&` and `||`.
#[cycle(plain)]
fn logical_value(program: &Program, world: &mut World, e: &CoreExpr) -> Result<Option<Value>, Stop>
    requires names { HasNames program.now }
    requires plain { is_plain e.now ≡ true }
    requires shape { shape_of (what_of e.now) ≡ shaped.Logical }
    ensures comes { (calls : Calls) → Comes (λ k w. eval (setting_of program.now calls) (tree program.now e.now) k w) world.old world.new result }
    ensures stays { StaysBelow world.old world.new }
{
    let Some((left, right)) = two_parts(e) else {
        return Err(stray(e));
    };
    let holds = tested(program, world, left, e.line)?;
    if is_settled(&e.what, holds) {
        return Ok(Some(truth(holds)));
    }
    let so = tested(program, world, right, e.line)?;
    Ok(Some(truth(so)))
}

/// `a ? b : c`.
#[cycle(plain)]
fn conditional_value(
    program: &Program,
    world: &mut World,
    e: &CoreExpr,
) -> Result<Option<Value>, Stop>
    requires names { HasNames program.now }
    requires plain { is_plain e.now ≡ true }
    requires shape { shape_of (what_of e.now) ≡ shaped.Conditional }
    ensures comes { (calls : Calls) → Comes (λ k w. eval (setting_of program.now calls) (tree program.now e.now) k w) world.old world.new result }
    ensures stays { StaysBelow world.old world.new }
{
    let Some((test, yes, no)) = three_parts(e) else {
        return Err(stray(e));
    };
    let holds = tested(program, world, test, test.line)?;
    if holds {
        plain_value(program, world, yes)
    } else {
        plain_value(program, world, no)
    }
}

/// Parts in order, of which the last gives the value.
#[cycle(plain)]
fn comma_value(program: &Program, world: &mut World, e: &CoreExpr) -> Result<Option<Value>, Stop>
    requires names { HasNames program.now }
    requires plain { is_plain e.now ≡ true }
    requires shape { shape_of (what_of e.now) ≡ shaped.Comma }
    ensures comes { (calls : Calls) → Comes (λ k w. eval (setting_of program.now calls) (tree program.now e.now) k w) world.old world.new result }
    ensures stays { StaysBelow world.old world.new }
{
    let Some((first, rest)) = first_part(e) else {
        return Err(stray(e));
    };
    let mut value = plain_value(program, world, first)?;
    for part in rest {
        value = plain_value(program, world, part)?;
    }
    Ok(value)
}

/// Whether the left part of `&&` or `||` decides, where it holds or not.
fn is_settled(what: &CoreKind, holds: bool) -> bool
    ensures { result ≡ settles what.now holds }
{
    match what {
        CoreKind::Or => holds,
        _ => !holds,
    }
}
