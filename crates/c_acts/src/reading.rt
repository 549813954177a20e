//! What a place holds.
ghost use Rattle.std.specs.Prelude.{◌≡◌, Ok, IfSome};
ghost use Rattle.objects.specs.declared.value.Value.TheVariants.{Number};
ghost use Rattle.objects.specs.Accesses as accesses;
ghost use Rattle.c_acts.specs.Spots.{LiesInUnit, held_at, kept_at};
ghost use Rattle.c_runs.specs.Places.{held, spot_of};
ghost use Rattle.c_worlds.specs.Programs.{tree};
ghost use Rattle.c_worlds.specs.Stops.{Tells};

use crate::spot::Spot;
use c_meaning::CoreExpr;
use c_worlds::{Program, Stop, at_line};
use lcc_base::{Cause, Order};
use objects::{Storage, Value, extend};

/// What the place of an expression holds, to which this points: a scalar or a bit-field.
pub fn read_place(
    program: &Program,
    storage: &Storage,
    place: &CoreExpr,
    p: Value,
    line: u32,
) -> Result<Value, Stop>
    ensures { Tells (held program.now.order (spot_of (tree program.now place.now)) storage.now.objects p) line result }
{
    let spot = Spot::of(program.core.types(), place)?;
    at_line(line, read_spot(program.order, spot, storage, p))
}

/// The number that the place of an expression holds, to which this points, but for a bit-field's; `None` says nothing.
#[inline(always)]
pub fn read_number(program: &Program, storage: &Storage, place: &CoreExpr, p: Value) -> Option<u32>
    ensures { IfSome result (λ n. held program.now.order (spot_of (tree program.now place.now)) storage.now.objects p ≡ Ok (Number n)) }
{
    match Spot::of(program.core.types(), place) {
        Ok(spot) if spot.width == 0 => storage.number(program.order, spot.scalar, p),
        _ => None,
    }
}

/// What stands there.
pub fn read_spot(order: Order, spot: Spot, storage: &Storage, p: Value) -> Result<Value, Cause>
    requires { LiesInUnit spot }
    ensures { result ≡ held_at order spot storage.now.objects p }
{
    if spot.width == 0 {
        storage.read(order, spot.scalar, p)
    } else {
        storage.read_field(order, spot.field(), p)
    }
}

/// What a spot holds once a value is written there: of a bit-field its low bits, as a number of its type.
pub fn kept(spot: Spot, value: Value) -> Value
    requires { LiesInUnit spot }
    ensures { result ≡ kept_at spot value }
{
    if spot.width == 0 {
        value
    } else {
        let n = number_or_zero(value);
        Value::Number(extend(spot.scalar.signed, spot.width, n))
    }
}

/// The number that a value is, else 0.
pub fn number_or_zero(value: Value) -> u32
    ensures { result ≡ accesses.number_or_zero value }
{
    match value {
        Value::Number(n) => n,
        _ => 0,
    }
}
