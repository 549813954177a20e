//! Numbers that are written without values that are handed on: the common case of assignments and changes.
ghost use Rattle.std.specs.Prelude.{◌≡◌, true, false, ℕ, Ok, IfSome};
ghost use Rattle.objects.specs.Accesses.{read};
ghost use Rattle.objects.specs.Arithmetic.{binary_value};
ghost use Rattle.objects.specs.declared.value.Value.TheVariants.{Number};
ghost use Rattle.c_meaning.specs.CoreTrees.{type_of};
ghost use Rattle.c_meaning.specs.Types.{is_record as is_record_type};
ghost use Rattle.c_meaning.specs.Values.{CoreTree};
ghost use Rattle.c_runs.specs.Places.{spot_of};
ghost use Rattle.c_worlds.specs.Programs.{known, tree};
ghost use Rattle.c_acts.specs.NumberStores.{ChangesTo, IsWritten, StoresNumber};
ghost use Rattle.c_acts.specs.Spots.{kept_of};

use crate::spot::Spot;
use c_meaning::{Change, CoreExpr, CoreKind};
use c_worlds::{Program, is_record};
use lcc_base::Order;
use objects::{Binary, Purpose, Scalar, Storage, Value, combine, to_scalar};

/// Writes in the place to which this points, that of its left part, what an expression makes of a number, the value of its
/// right part, where it assigns or changes a number there. Else nothing has changed, and `binary_act` tells what comes.
pub fn number_stored(
    program: &Program,
    storage: &mut Storage,
    e: &CoreExpr,
    left: &CoreExpr,
    p: &Value,
    n: u32,
) -> bool
    ensures written { result ≡ true → IsWritten program.now e.now (tree program.now left.now) p.now n storage.old storage.new }
    ensures same { result ≡ false → storage.new ≡ storage.old }
{
    match Spot::of(program.core.types(), left) {
        Ok(spot) if spot.width == 0 => match new_number(program, storage, e, spot, p, n) {
            Some(m) => {
                let width = spot.scalar.width;
                let purpose = Purpose::Assignment;
                storage
                    .write_number(purpose, program.order, width, m, *p)
                    .is_ok()
            }
            None => false,
        },
        _ => false,
    }
}

/// The number that is to be written, where there is one; `None` says nothing.
#[inline(always)]
fn new_number(
    program: &Program,
    storage: &Storage,
    e: &CoreExpr,
    spot: Spot,
    p: &Value,
    n: u32,
) -> Option<u32>
    requires { spot.width ≡ 0 }
    ensures { IfSome result (λ m. (left : CoreTree) → kept_of (spot_of left) ≡ spot → StoresNumber program.now e.now left p.now n m storage.now.objects) }
{
    match &e.what {
        CoreKind::Assign => assigned_number(program, e, n),
        CoreKind::Change(by) => changed_number(program.order, storage, spot.scalar, *by, p, n),
        CoreKind::Postfix(by) => changed_number(program.order, storage, spot.scalar, *by, p, n),
        _ => None,
    }
}

/// A number that is assigned, unless a structure is.
#[inline(always)]
fn assigned_number(program: &Program, e: &CoreExpr, n: u32) -> Option<u32>
    ensures { IfSome result (λ m. (m ≡ n) × (is_record_type (known program.now (type_of e.now)) ≡ false)) }
{
    if is_record(program.core.types(), e.of) {
        None
    } else {
        Some(n)
    }
}

/// The new number of a place with a scalar of this type, changed by another one.
#[inline(always)]
fn changed_number(
    order: Order,
    storage: &Storage,
    scalar: Scalar,
    by: Change,
    p: &Value,
    n: u32,
) -> Option<u32>
    ensures { IfSome result (λ m. (old : ℕ) × ChangesTo order scalar by storage.now.objects p.now n old m) }
{
    let Change::Arithmetic { operator, signed } = by else {
        return None;
    };
    let old = stored_number(order, storage, scalar, p)?;
    let new = combined(signed, operator, old, n)?;
    Some(to_scalar(scalar, new))
}

/// The number that a scalar at a place is, if it is one.
#[inline(always)]
fn stored_number(order: Order, storage: &Storage, scalar: Scalar, p: &Value) -> Option<u32>
    ensures { IfSome result (λ n. read order scalar storage.now.objects p.now ≡ Ok (Number n)) }
{
    storage.number(order, scalar, *p)
}

/// What an operation makes of two numbers, if it has a result.
#[inline(always)]
fn combined(signed: bool, operator: Binary, x: u32, y: u32) -> Option<u32>
    ensures { IfSome result (λ z. binary_value signed operator (Number x) (Number y) ≡ Ok (Number z)) }
{
    combine(signed, operator, x, y).ok()
}
