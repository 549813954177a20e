//! Assignments of scalars, bit-fields and structures.
ghost use Rattle.std.specs.Prelude.{◌≡◌, ◌<◌, None, Some, IfErr, OnOk};
ghost use Rattle.c_meaning.specs.CoreTrees.{line_of};
ghost use Rattle.c_meaning.specs.Types.{is_record as is_record_type};
ghost use Rattle.c_runs.specs.Expressions.{assigned_scalar, assigned_whole};
ghost use Rattle.c_runs.specs.Outcomes.{either};
ghost use Rattle.c_runs.specs.Places.{spot_of};
ghost use Rattle.c_worlds.specs.Programs.{Calls, known, setting_of, tree};
ghost use Rattle.c_worlds.specs.Shown.{Gets, StaysBelow};
ghost use Rattle.c_worlds.specs.Stops.{Stores};
ghost use Rattle.objects.specs.declared.purpose.Purpose.TheVariants.{Assignment as AsAssignment};
ghost use Rattle.objects.specs.Accesses.{read_cause};
ghost use Rattle.objects.specs.Copies.{copied};

use crate::binary_acts::Parts;
use crate::reading::kept;
use crate::spot::Spot;
use crate::storing::{Writing, store};
use c_types::TypeId;
use c_worlds::{Program, Stop, World, alignment, is_record, size, store_at_line};
use lcc_base::Cause;
use objects::{Purpose, Storage, Value};

/// A value of this type stored in a place.
pub fn assign(
    program: &Program,
    world: &mut World,
    of: TypeId,
    parts: &Parts,
    line: u32,
) -> Result<Value, Stop>
    ensures gets { (calls : Calls) → Gets (λ k w. either (is_record_type (known program.now of)) (λ k1 w1. assigned_whole (setting_of program.now calls) (known program.now of) (line_of (tree program.now parts.now.right.now)) line parts.now.left_value parts.now.right_value k1 w1) (λ k1 w1. assigned_scalar (setting_of program.now calls) (spot_of (tree program.now parts.now.left.now)) line parts.now.left_value parts.now.right_value k1 w1) k w) world.old world.new result }
    ensures stays { StaysBelow world.old world.new }
{
    if is_record(program.core.types(), of) {
        assign_whole(program, world, of, parts, line)
    } else {
        assign_scalar(program, world, parts, line)
    }
}

/// A scalar or bit-field stored.
fn assign_scalar(
    program: &Program,
    world: &mut World,
    parts: &Parts,
    line: u32,
) -> Result<Value, Stop>
    ensures gets { (calls : Calls) → Gets (λ k w. assigned_scalar (setting_of program.now calls) (spot_of (tree program.now parts.now.left.now)) line parts.now.left_value parts.now.right_value k w) world.old world.new result }
    ensures stays { StaysBelow world.old world.new }
{
    let spot = Spot::of(program.core.types(), parts.left)?;
    let how = Writing {
        purpose: Purpose::Assignment,
        order: program.order,
        line,
    };
    store(
        &mut world.storage,
        how,
        spot,
        parts.right_value,
        parts.left_value,
    )?;
    Ok(kept(spot, parts.right_value))
}

/// A structure copied. The source's causes have the source's line.
fn assign_whole(
    program: &Program,
    world: &mut World,
    of: TypeId,
    parts: &Parts,
    line: u32,
) -> Result<Value, Stop>
    ensures gets { (calls : Calls) → Gets (λ k w. assigned_whole (setting_of program.now calls) (known program.now of) (line_of (tree program.now parts.now.right.now)) line parts.now.left_value parts.now.right_value k w) world.old world.new result }
    ensures stays { StaysBelow world.old world.new }
{
    let types = program.core.types();
    let (size, alignment) = (size(types, of), alignment(types, of));
    let (source, from, to) = (parts.right, parts.right_value, parts.left_value);
    match readable(&world.storage, from, size, alignment) {
        Err(cause) => Err(Stop::Undefined(cause, source.line)),
        Ok(()) => {
            copy_whole(&mut world.storage, from, to, size, alignment, line)?;
            Ok(to)
        }
    }
}

/// So many bytes copied.
fn copy_whole(
    storage: &mut Storage,
    from: Value,
    to: Value,
    size: u32,
    alignment: u32,
    line: u32,
) -> Result<(), Stop>
    requires { 0 < alignment }
    ensures { Stores (copied AsAssignment storage.old.objects from to size alignment) line storage.old storage.new result }
{
    store_at_line(
        line,
        storage.copy(Purpose::Assignment, from, to, size, alignment),
    )
}

/// Whether so many bytes at a place can be read. `Outside`, `Misaligned` and `Dead` come in this order.
fn readable(storage: &Storage, p: Value, size: u32, alignment: u32) -> Result<(), Cause>
    requires { 0 < alignment }
    ensures ok { OnOk result (read_cause storage.now.objects p size alignment ≡ None) }
    ensures err { IfErr result (λ c. read_cause storage.now.objects p size alignment ≡ Some c) }
{
    match p {
        Value::Pointer { object, offset } => {
            if (object.size as u64) < offset as u64 + size as u64 {
                Err(Cause::Outside)
            } else if offset % alignment != 0 {
                Err(Cause::Misaligned)
            } else if storage.is_dead(p) {
                Err(Cause::Dead)
            } else {
                Ok(())
            }
        }
        _ => Err(Cause::Outside),
    }
}
