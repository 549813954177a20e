//! Places whose values are changed.
ghost use Rattle.std.specs.Prelude.{◌≡◌};
ghost use Rattle.c_acts.specs.Changes.{given_at};
ghost use Rattle.c_meaning.specs.CoreTrees.{type_of};
ghost use Rattle.c_meaning.specs.Scalars.{scalar_of};
ghost use Rattle.c_runs.specs.Expressions.{changed, changed_at};
ghost use Rattle.c_runs.specs.Places.{Spot as SpotOf, spot_of};
ghost use Rattle.c_worlds.specs.Programs.{Calls, known, setting_of, tree};
ghost use Rattle.c_worlds.specs.Shown.{Gets, StaysBelow};
ghost use Rattle.c_worlds.specs.Stops.{Tells};
ghost use Rattle.objects.specs.Conversions.{as_type};

use crate::binary_acts::Parts;
use crate::moving::{Moving, Typed, move_elements};
use crate::reading::{kept, read_spot};
use crate::spot::Spot;
use crate::storing::{Writing, store};
use c_meaning::Change;
use c_worlds::{Program, Stop, World, at_line};
use objects::{Purpose, Scalar, Storage, Value, binary, to_scalar};

/// A place changed by the value of a right operand, and what it holds then, or with `postfix` what it held before. The
/// causes of its old value come first, then those of the new one, and then those of the store.
pub fn change_place(
    program: &Program,
    world: &mut World,
    by: Change,
    postfix: bool,
    parts: &Parts,
    line: u32,
) -> Result<Value, Stop>
    ensures gets { (calls : Calls) → Gets (λ k w. changed_at (setting_of program.now calls) by (spot_of (tree program.now parts.now.left.now)) (type_of (tree program.now parts.now.right.now)) (given_at postfix) line parts.now.left_value parts.now.right_value k w) world.old world.new result }
    ensures stays { StaysBelow world.old world.new }
{
    let spot = Spot::of(program.core.types(), parts.left)?;
    let old = at_line(
        line,
        read_spot(program.order, spot, &world.storage, parts.left_value),
    )?;
    let new = new_value(
        program,
        &world.storage,
        Changing {
            by,
            scalar: spot.scalar,
            line,
        },
        old,
        parts,
    )?;
    let how = Writing {
        purpose: Purpose::Assignment,
        order: program.order,
        line,
    };
    store(&mut world.storage, how, spot, new, parts.left_value)?;
    Ok(if postfix { old } else { kept(spot, new) })
}

/// By what the value of a place is changed, of which width and sign, and the line.
#[derive(Clone, Copy)]
struct Changing {
    by: Change,
    scalar: Scalar,
    line: u32,
}

/// The new value of a place, by the old one and the right operand.
fn new_value(
    program: &Program,
    storage: &Storage,
    how: Changing,
    old: Value,
    parts: &Parts,
) -> Result<Value, Stop>
    ensures { (x : SpotOf) → how.scalar ≡ scalar_of x.of → Tells (changed how.by x (type_of (tree program.now parts.now.right.now)) storage.now.objects old parts.now.right_value) how.line result }
{
    match how.by {
        Change::Arithmetic { operator, signed } => {
            let value = at_line(how.line, binary(signed, operator, old, parts.right_value))?;
            Ok(as_scalar(how.scalar, value))
        }
        Change::Pointer { size, back } => {
            let moving = Moving {
                size,
                back,
                line: how.line,
            };
            let right = parts.right;
            let operand = Typed {
                value: parts.right_value,
                of: right.of,
            };
            move_elements(program.core.types(), storage, moving, old, operand)
        }
    }
}

/// A number as one of the type; a pointer or function as it is.
fn as_scalar(scalar: Scalar, value: Value) -> Value
    ensures { result ≡ as_type scalar value }
{
    match value {
        Value::Number(n) => Value::Number(to_scalar(scalar, n)),
        _ => value,
    }
}
