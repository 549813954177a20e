//! Numbers that are written at once.
ghost use Rattle.std.specs.Prelude.{◌≡◌, IfNone, IfSome};
ghost use Rattle.c_acts.specs.Shapes.{shape_of};
ghost use Rattle.c_acts.specs.declared.shape.Shape.TheVariants as shaped;
ghost use Rattle.c_meaning.specs.CoreTrees.{what_of};
ghost use Rattle.c_plain.specs.AtOnce.{DoneAtOnce, dropped};
ghost use Rattle.c_worlds.specs.Programs.{HasNames};
ghost use Rattle.c_worlds.specs.Shown.{StaysBelow};

use crate::found::local_place;
use crate::parts::two_parts;
use crate::words::{plain_pointer, plain_word};
use c_acts::{Parts, binary_act, number_stored};
use c_meaning::{CoreExpr, CoreKind};
use c_worlds::{Program, Stop, World};
use objects::Value;

/// An expression whose value isn't used is evaluated, where it writes a number that is found at once; else `None`, and
/// nothing has changed.
pub(crate) fn number_written(
    program: &Program,
    world: &mut World,
    e: &CoreExpr,
) -> Option<Result<(), Stop>>
    requires names { HasNames program.now }
    ensures done { IfSome result (λ r. DoneAtOnce program.now world.old world.new e.now r) }
    ensures same { IfNone result (world.new ≡ world.old) }
    ensures stays { StaysBelow world.old world.new }
{
    match e.what {
        CoreKind::Assign | CoreKind::Change(_) | CoreKind::Postfix(_) => {
            match local_written(program, world, e) {
                Some(done) => Some(done),
                None => written(program, world, e),
            }
        }
        _ => None,
    }
}

/// The same of one whose left part is an object of the running call, as it mostly is.
fn local_written(program: &Program, world: &mut World, e: &CoreExpr) -> Option<Result<(), Stop>>
    requires names { HasNames program.now }
    requires shape { shape_of (what_of e.now) ≡ shaped.Binary }
    ensures done { IfSome result (λ r. DoneAtOnce program.now world.old world.new e.now r) }
    ensures same { IfNone result (world.new ≡ world.old) }
    ensures stays { StaysBelow world.old world.new }
{
    let (left, right) = two_parts(e)?;
    let n = plain_word(program, world, right)?;
    let place = local_place(world, left)?;
    let p = *place;
    if number_stored(program, &mut world.storage, e, left, &p, n) {
        Some(Ok(()))
    } else {
        None
    }
}

/// The same of an expression with two parts.
fn written(program: &Program, world: &mut World, e: &CoreExpr) -> Option<Result<(), Stop>>
    requires names { HasNames program.now }
    requires shape { shape_of (what_of e.now) ≡ shaped.Binary }
    ensures done { IfSome result (λ r. DoneAtOnce program.now world.old world.new e.now r) }
    ensures same { IfNone result (world.new ≡ world.old) }
    ensures stays { StaysBelow world.old world.new }
{
    let (left, right) = two_parts(e)?;
    let left_value = plain_pointer(program, world, left)?;
    let n = plain_word(program, world, right)?;
    if number_stored(program, &mut world.storage, e, left, &left_value, n) {
        return Some(Ok(()));
    }
    let parts = Parts {
        left,
        left_value,
        right,
        right_value: Value::Number(n),
    };
    Some(no_value(binary_act(program, world, e, &parts)))
}

/// What came of an expression whose value isn't used.
pub(crate) fn no_value(given: Result<Option<Value>, Stop>) -> Result<(), Stop>
    ensures { result ≡ dropped given }
{
    match given {
        Ok(_) => Ok(()),
        Err(stop) => Err(stop),
    }
}
