//! Structures that calls pass and give are copied into objects of their own.
ghost use Rattle.c_entries.specs.Copied.{Becomes, with_copy};
ghost use Rattle.c_entries.specs.Entered.{Copies};
ghost use Rattle.c_worlds.specs.Shown.{StaysBelow};

use c_meaning::CoreExpr;
use c_types::TypeId;
use c_worlds::{Program, Stop, World, alignment, size, store_at_line};
use lcc_base::Cause;
use objects::{Purpose, Value};

/// Copies the structure that an argument is to the running call's local n, and gives the copy. `Undefined` comes at the
/// argument's line.
pub fn copy_argument(
    program: &Program,
    world: &mut World,
    part: &CoreExpr,
    n: u32,
    value: Value,
) -> Result<Value, Stop>
    ensures copies { Copies program.now part.now n value world.old world.new result }
    ensures stays { StaysBelow world.old world.new }
{
    match world.locals.get(n) {
        Some(copy) => {
            copy_structure(program, world, part.of, part.line, value, copy)?;
            Ok(copy)
        }
        None => Err(Stop::Undefined(Cause::Outside, part.line)),
    }
}

/// Copies a structure of a type into a new object. `Undefined` comes at the line.
pub(crate) fn copy_structure(
    program: &Program,
    world: &mut World,
    of: TypeId,
    line: u32,
    from: Value,
    to: Value,
) -> Result<(), Stop>
    ensures becomes { Becomes (with_copy program.now of world.old.storage.objects from to) line world.old world.new result }
    ensures stays { StaysBelow world.old world.new }
{
    let types = program.core.types();
    let (size, alignment) = (size(types, of), alignment(types, of));
    store_at_line(
        line,
        world
            .storage
            .copy(Purpose::Initialisation, from, to, size, alignment),
    )
}
