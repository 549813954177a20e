//! A function is left: a structure that it gives is copied to the caller, and its objects are past their lifetimes.
ghost use Rattle.std.specs.Prelude.{◌≡◌, OnOk};
ghost use Rattle.c_entries.specs.Left.{Hands, Leaves};
ghost use Rattle.c_worlds.specs.OpenLocals.{locals_from};
ghost use Rattle.c_worlds.specs.Shown.{StaysBelow};

use crate::copying::copy_structure;
use c_meaning::CoreExpr;
use c_types::TypeId;
use c_worlds::{Program, Stop, World, is_record};
use objects::Value;

/// What a call that waits finds again.
#[derive(Clone, Copy, Debug)]
pub struct Waiting {
    /// The caller's local where the result stands, if it is a structure.
    pub result: u32,
    /// How many objects lived before the call.
    pub objects: usize,
    /// How many locals stand before the caller's.
    pub base: usize,
}

/// Leaves the running function with this value, which stands in this line, for the call that waits, and gives what the
/// call gives: of a structure its copy. `Undefined` comes at the value's line, where the structure can't be copied.
pub fn leave(
    program: &Program,
    world: &mut World,
    call: &CoreExpr,
    waiting: Waiting,
    value: Option<Value>,
    line: u32,
) -> Result<Option<Value>, Stop>
    ensures leaves { Leaves program.now call.now waiting value line world.old world.new result }
    ensures output { world.new.output ≡ world.old.output }
    ensures locals { OnOk result (world.new.locals ≡ locals_from waiting.base world.old.locals.below) }
{
    let given = match value {
        Some(v) => Some(hand(program, world, call.of, waiting, v, line)?),
        None => None,
    };
    world.locals.close(waiting.base);
    world.storage.end(waiting.objects);
    Ok(given)
}

/// What the caller gets of a value: of a structure the copy in its local.
fn hand(
    program: &Program,
    world: &mut World,
    of: TypeId,
    waiting: Waiting,
    value: Value,
    line: u32,
) -> Result<Value, Stop>
    ensures hands { Hands program.now of waiting value line world.old world.new result }
    ensures stays { StaysBelow world.old world.new }
{
    if !is_record(program.core.types(), of) {
        return Ok(value);
    }
    match world.locals.waiting(waiting.base, waiting.result) {
        Some(copy) => {
            copy_structure(program, world, of, line, value, copy)?;
            Ok(copy)
        }
        None => Ok(value),
    }
}
