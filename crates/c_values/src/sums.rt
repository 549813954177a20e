//! Sums and differences of numbers and pointers (C89 3.3.6).
ghost use Rattle.std.specs.Prelude.{◌≡◌, ◌<◌, length, true, IfOk};
ghost use Rattle.c_types.specs.Table.{tags, type_at};
ghost use Rattle.c_meaning.specs.CoreTrees.{IsIn, seen, type_of};
ghost use Rattle.c_meaning.specs.ExprConstraints.{can_add, can_subtract};
ghost use Rattle.c_meaning.specs.Rows.{difference as pointer_difference, less as subtracted, sum as added};

use crate::arithmetic::{arithmetic, is_pointer, moved, target_size};
use crate::basic_places::INT;
use crate::forming::with_two;
use c_meaning::{CoreExpr, CoreKind};
use c_types::TypeTable;
use lcc_base::Memory;
use objects::Binary;
use std::alloc::Global;

/// `v + w`.
pub fn sum(
    alloc: Global,
    types: &TypeTable,
    line: u32,
    v: CoreExpr,
    w: CoreExpr,
) -> Result<CoreExpr, Memory>
    requires first { IsIn (length types.now.forms) v }
    requires second { IsIn (length types.now.forms) w }
    requires fits { can_add (type_at types.now (type_of v)) (type_at types.now (type_of w)) ≡ true }
    ensures means { IfOk result (λ c. seen (type_at types.now) c ≡ added (tags types.now) line (seen (type_at types.now) v) (seen (type_at types.now) w)) }
    ensures within { IfOk result (λ c. IsIn (length types.now.forms) c) }
{
    if is_pointer(types, v.of) || is_pointer(types, w.of) {
        moved(alloc, types, line, false, v, w)
    } else {
        arithmetic(alloc, types, line, Binary::Add, v, w)
    }
}

/// How many elements stand between two pointers.
fn difference(
    alloc: Global,
    types: &TypeTable,
    line: u32,
    v: CoreExpr,
    w: CoreExpr,
) -> Result<CoreExpr, Memory>
    requires first { IsIn (length types.now.forms) v }
    requires second { IsIn (length types.now.forms) w }
    ensures means { IfOk result (λ c. seen (type_at types.now) c ≡ pointer_difference (tags types.now) line (seen (type_at types.now) v) (seen (type_at types.now) w)) }
    ensures within { IfOk result (λ c. IsIn (length types.now.forms) c) }
{
    let size = target_size(types, v.of);
    let of = types.basic_type(INT);
    with_two(alloc, CoreKind::Difference { size }, of, line, (v, w))
}

/// `v - w`.
pub fn less(
    alloc: Global,
    types: &TypeTable,
    line: u32,
    v: CoreExpr,
    w: CoreExpr,
) -> Result<CoreExpr, Memory>
    requires first { IsIn (length types.now.forms) v }
    requires second { IsIn (length types.now.forms) w }
    requires fits { can_subtract (type_at types.now (type_of v)) (type_at types.now (type_of w)) ≡ true }
    ensures means { IfOk result (λ c. seen (type_at types.now) c ≡ subtracted (tags types.now) line (seen (type_at types.now) v) (seen (type_at types.now) w)) }
    ensures within { IfOk result (λ c. IsIn (length types.now.forms) c) }
{
    if !is_pointer(types, v.of) {
        arithmetic(alloc, types, line, Binary::Subtract, v, w)
    } else if is_pointer(types, w.of) {
        difference(alloc, types, line, v, w)
    } else {
        moved(alloc, types, line, true, v, w)
    }
}
