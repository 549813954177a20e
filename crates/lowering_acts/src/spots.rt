//! Scalars and bit-fields at the places of expressions.
ghost use Rattle.std.specs.Prelude.{◌≡◌, ◌&&◌, IfOk, OnOk};
ghost use Rattle.c_runs.specs.Places.{Spot as SpotOf, spot_of};
ghost use Rattle.lowering_acts.specs.Gives.{Gives};
ghost use Rattle.lowering_acts.specs.Sites.{tree_in};
ghost use Rattle.lowering_acts.specs.Spotted.{IsFieldOf, LiesInUnit, spotted};
ghost use Rattle.lowered_forms.specs.Accesses as accesses;
ghost use Rattle.lowering_steps.specs.Asking.{Acts, Places};
ghost use Rattle.lowering_steps.specs.Operands.{typed_of};

use crate::site::Site;
use c_meaning::{CoreExpr, CoreKind};
use c_worlds::{is_pointer, scalar};
use lcc_base::{Memory, Order};
use lowering_steps::{OpenBlock, Operand};
use objects::{Field, Scalar};

/// What stands at a place: the width and sign of its type, whether that is a pointer, and where it is a bit-field, how many
/// bits of its unit were filled before it, and its width, else 0.
#[derive(Clone, Copy, Debug)]
pub struct Spot {
    pub scalar: Scalar,
    pub pointer: bool,
    pub first: u8,
    pub width: u8,
}

/// That of an expression of a place.
pub fn spot_at(site: &Site, e: &CoreExpr) -> Spot
    ensures { result ≡ spotted (spot_of (tree_in site.now e.now)) }
{
    let types = site.program.core.types();
    let (first, width) = match e.what {
        CoreKind::Member { first, width, .. } => (first, width),
        _ => (0, 0),
    };
    Spot {
        scalar: scalar(types, e.of),
        pointer: is_pointer(types, e.of),
        first,
        width,
    }
}

impl Spot {
    // The bit-field that it is, if it is one. `Memory` where it doesn't lie in its unit of 32 bits, which each does in a checked unit.
    fn field(self) -> Result<Option<Field>, Memory>
        ensures is { (x : SpotOf) → self ≡ spotted x → IfOk result (λ f. IsFieldOf x f) }
        ensures inside { IfOk result (λ f. LiesInUnit f) }
    {
        if self.width == 0 {
            return Ok(None);
        }
        if u32::from(self.first) + u32::from(self.width) > 32 {
            return Err(Memory);
        }
        Ok(Some(Field {
            first: self.first,
            width: self.width,
            signed: self.scalar.signed,
        }))
    }
}

/// What a place holds.
pub fn read(
    block: &mut OpenBlock,
    order: Order,
    spot: Spot,
    place: Operand,
) -> Result<Operand, Memory>
    ensures { (x : SpotOf) → spot ≡ spotted x → IfOk result (λ v. Places block.old (accesses.read order x (typed_of place)) v block.new) }
{
    match spot.field()? {
        Some(field) => block.field_loaded(order, field, place),
        None => block.scalar_read(spot.pointer, spot.scalar, place),
    }
}

/// A value is written at a place.
pub fn write(
    block: &mut OpenBlock,
    shared: bool,
    order: Order,
    spot: Spot,
    place: Operand,
    value: Operand,
) -> Result<(), Memory>
    ensures { (x : SpotOf) → spot ≡ spotted x → OnOk result (Acts block.old (λ l. accesses.written shared order x (typed_of place) (typed_of value) l) block.new) }
{
    match spot.field()? {
        Some(field) => {
            let top = goes_by_top(shared, field);
            block.store_field(top, order, field, place, value)
        }
        None => block.store(spot.scalar.width, place, value),
    }
}

// Whether a field's bits go by way of the top of a word: where its value shares the first step with them.
fn goes_by_top(shared: bool, field: Field) -> bool
    ensures { result ≡ (shared && field.signed) }
{
    shared && field.signed
}

// The value that a place has once this one is written there.
fn kept(block: &mut OpenBlock, spot: Spot, value: Operand) -> Result<Operand, Memory>
    ensures { (x : SpotOf) → spot ≡ spotted x → IfOk result (λ v. Places block.old (accesses.kept x (typed_of value)) v block.new) }
{
    match spot.field()? {
        Some(field) => block.field_value(field, value),
        None => block.placed(value),
    }
}

/// A value is written at a place, and is the value that the place has then.
pub fn assign(
    block: &mut OpenBlock,
    order: Order,
    spot: Spot,
    place: Operand,
    value: Operand,
) -> Result<Operand, Memory>
    ensures { (x : SpotOf) → spot ≡ spotted x → IfOk result (λ v. Gives block.old (λ l. accesses.assigned order x (typed_of place) (typed_of value) l) v block.new) }
{
    let kept = kept(block, spot, value)?;
    write(block, true, order, spot, place, value)?;
    Ok(kept)
}
