//! Values as tests.
ghost use Rattle.std.specs.Prelude.{◌≡◌, IfOk, IfErr, ℕ};
ghost use Rattle.c_runs.specs.Expressions.{asked, holds as holds_as};
ghost use Rattle.c_worlds.specs.Programs.{tree};
ghost use Rattle.c_worlds.specs.Shown.{Gets, giving};
ghost use Rattle.c_types.specs.Table.{type_at};
ghost use Rattle.c_acts.specs.Tests.{truth_of};

use c_meaning::CoreExpr;
use c_types::{TypeId, TypeTable};
use c_worlds::{Program, Stop, World, at_line, is_pointer};
use lcc_base::Cause;
use objects::{Storage, Value};

/// Whether the value of an expression holds as a test. `Undefined` with `PointerNumber` or `Dead` comes at this line.
pub fn asked(
    program: &Program,
    world: &World,
    part: &CoreExpr,
    value: Value,
    line: u32,
) -> Result<bool, Stop>
    ensures { Gets (λ k w. asked (giving (tree program.now part.now) value) line k w) world.now world.now (truth_of result) }
{
    at_line(
        line,
        holds(program.core.types(), part.of, &world.storage, value),
    )
}

/// Whether a value of this type holds.
fn holds(types: &TypeTable, of: TypeId, storage: &Storage, value: Value) -> Result<bool, Cause>
    ensures { result ≡ holds_as (type_at types.now of) storage.now.objects value }
{
    match value {
        Value::Number(n) => Ok(n != 0),
        _ if is_pointer(types, of) => storage.test(value),
        _ => Err(Cause::PointerNumber),
    }
}
