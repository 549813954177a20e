//! Places that are changed.
ghost use Rattle.std.specs.Prelude.{◌≡◌, IfOk};
ghost use Rattle.c_runs.specs.Places.{Spot as SpotOf};
ghost use Rattle.lowering_acts.specs.Gives.{Gives};
ghost use Rattle.lowering_acts.specs.Rows.{given_by};
ghost use Rattle.lowering_acts.specs.Spotted.{spotted};
ghost use Rattle.lowered_forms.specs.Changes.{changed as changed_by, changed_at};
ghost use Rattle.lowering_steps.specs.Asking.{Places};
ghost use Rattle.lowering_steps.specs.Operands.{typed_of};

use crate::spots::{Spot, assign, read, write};
use c_meaning::Change;
use lcc_base::{Memory, Order};
use lowering_steps::{OpenBlock, Operand};
use objects::Scalar;

/// A change of a place: by what, and whether the value before it is given, or the new one.
#[derive(Clone, Copy, Debug)]
pub struct Changing {
    pub by: Change,
    pub postfix: bool,
}

/// The value of a place is changed by a right operand.
pub fn change(
    block: &mut OpenBlock,
    order: Order,
    changing: Changing,
    spot: Spot,
    place: Operand,
    value: Operand,
) -> Result<Operand, Memory>
    ensures { (x : SpotOf) → spot ≡ spotted x → IfOk result (λ v. Gives block.old (λ l. changed_at order changing.by x (given_by changing.postfix) (typed_of place) (typed_of value) l) v block.new) }
{
    let old = read(block, order, spot, place)?;
    let new = changed(block, changing.by, spot.scalar, old, value)?;
    if changing.postfix {
        write(block, false, order, spot, place, new)?;
        Ok(old)
    } else {
        assign(block, order, spot, place, new)
    }
}

// The new value, by the old one and the right operand.
fn changed(
    block: &mut OpenBlock,
    by: Change,
    scalar: Scalar,
    old: Operand,
    value: Operand,
) -> Result<Operand, Memory>
    ensures { (x : SpotOf) → scalar ≡ (spotted x).scalar → IfOk result (λ v. Places block.old (changed_by by x (typed_of old) (typed_of value)) v block.new) }
{
    match by {
        Change::Arithmetic { operator, signed } => {
            block.binary_as(scalar, operator, signed, old, value)
        }
        Change::Pointer { size, back } => block.moved(size, back, old, value),
    }
}
