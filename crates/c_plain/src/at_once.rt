//! Expressions of statements, evaluated in one go where they call nothing.
ghost use Rattle.std.specs.Prelude.{◌≡◌, false, IfNone, IfSome};
ghost use Rattle.c_acts.specs.Tests.{truth_of};
ghost use Rattle.c_plain.specs.AtOnce.{DoneAtOnce};
ghost use Rattle.c_plain.specs.Plain.{is_plain as is_plain_tree};
ghost use Rattle.c_runs.specs.Expressions.{eval, test};
ghost use Rattle.c_worlds.specs.Programs.{Calls, HasNames, setting_of, tree};
ghost use Rattle.c_worlds.specs.Shown.{Comes, Gets, StaysBelow};

use crate::effects::{no_value, number_written};
use crate::plain::is_plain;
use crate::plain_values::{plain_test, plain_value};
use crate::words::plain_word;
use c_meaning::CoreExpr;
use c_worlds::{Program, Stop, World};
use objects::Value;

/// What an expression gives, if it calls nothing; else `None`, and nothing has changed. `Undefined` has the cause and the
/// line of what can't go on; after `Memory` nothing is said of the objects' bytes.
pub fn value_at_once(
    program: &Program,
    world: &mut World,
    e: &CoreExpr,
) -> Option<Result<Option<Value>, Stop>>
    requires names { HasNames program.now }
    ensures comes { IfSome result (λ r. (calls : Calls) → Comes (λ k w. eval (setting_of program.now calls) (tree program.now e.now) k w) world.old world.new r) }
    ensures none { IfNone result (is_plain_tree e.now ≡ false) }
    ensures same { IfNone result (world.new ≡ world.old) }
    ensures stays { StaysBelow world.old world.new }
{
    if let Some(n) = plain_word(program, world, e) {
        return Some(Ok(Some(Value::Number(n))));
    }
    if is_plain(e) {
        Some(plain_value(program, world, e))
    } else {
        None
    }
}

/// Whether such an expression holds as the test of a statement.
pub fn test_at_once(
    program: &Program,
    world: &mut World,
    e: &CoreExpr,
) -> Option<Result<bool, Stop>>
    requires names { HasNames program.now }
    ensures comes { IfSome result (λ r. (calls : Calls) → Gets (λ k w. test (setting_of program.now calls) (tree program.now e.now) k w) world.old world.new (truth_of r)) }
    ensures none { IfNone result (is_plain_tree e.now ≡ false) }
    ensures same { IfNone result (world.new ≡ world.old) }
    ensures stays { StaysBelow world.old world.new }
{
    if let Some(n) = plain_word(program, world, e) {
        return Some(Ok(n != 0));
    }
    if is_plain(e) {
        Some(plain_test(program, world, e))
    } else {
        None
    }
}

/// What comes of such an expression whose value isn't used.
pub fn effect_at_once(
    program: &Program,
    world: &mut World,
    e: &CoreExpr,
) -> Option<Result<(), Stop>>
    requires names { HasNames program.now }
    ensures comes { IfSome result (λ r. DoneAtOnce program.now world.old world.new e.now r) }
    ensures none { IfNone result (is_plain_tree e.now ≡ false) }
    ensures same { IfNone result (world.new ≡ world.old) }
    ensures stays { StaysBelow world.old world.new }
{
    match number_written(program, world, e) {
        Some(done) => Some(done),
        None => effect_in_full(program, world, e),
    }
}

/// The same by its value.
#[inline(never)]
fn effect_in_full(program: &Program, world: &mut World, e: &CoreExpr) -> Option<Result<(), Stop>>
    requires names { HasNames program.now }
    ensures comes { IfSome result (λ r. DoneAtOnce program.now world.old world.new e.now r) }
    ensures none { IfNone result (is_plain_tree e.now ≡ false) }
    ensures same { IfNone result (world.new ≡ world.old) }
    ensures stays { StaysBelow world.old world.new }
{
    if is_plain(e) {
        Some(no_value(plain_value(program, world, e)))
    } else {
        None
    }
}
