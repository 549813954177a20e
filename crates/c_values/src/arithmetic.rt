//! Numbers and moved pointers, as operators make them of values (C89 3.3.5 to 3.3.7, 3.3.10 to 3.3.12).
ghost use Rattle.std.specs.Prelude.{◌≡◌, ◌<◌, ◌∷◌, [], length, true, IfOk};
ghost use Rattle.c_types.specs.Conversions.{is_integer as integer};
ghost use Rattle.c_types.specs.Table.{tags, type_at};
ghost use Rattle.c_meaning.specs.CoreTrees.{IsIn, seen, type_of};
ghost use Rattle.c_meaning.specs.Rows.{arithmetic as combined_numbers, moved as moved_pointer, moving as moving_part, pointer_among as pointed_among, shift as shifted, size_of};
ghost use Rattle.c_meaning.specs.Types.{is_pointer as pointers, is_scalar, target};

use crate::forming::{converted, promoted, promoted_type, usual_type, with_two};
use crate::kinds;
use c_meaning::{CoreExpr, CoreKind};
use c_types::{TypeId, TypeTable};
use lcc_base::Memory;
use objects::Binary;
use std::alloc::Global;

/// Whether the type is a pointer.
pub fn is_pointer(types: &TypeTable, id: TypeId) -> bool
    requires { id < length types.now.forms }
    ensures { result ≡ pointers (type_at types.now id) }
{
    kinds::target(types, id).is_some()
}

/// The size in bytes of what the type points to. 0 where that has none, and of what is no pointer.
pub fn target_size(types: &TypeTable, id: TypeId) -> u32
    requires { id < length types.now.forms }
    ensures { result ≡ size_of (tags types.now) (target (type_at types.now id)) }
{
    match kinds::target(types, id) {
        Some(to) => types.size(to).unwrap_or(0),
        None => 0,
    }
}

/// Two numbers under an operator, at the type of the usual arithmetic conversions (C89 3.2.1.5).
pub fn arithmetic(
    alloc: Global,
    types: &TypeTable,
    line: u32,
    operator: Binary,
    v: CoreExpr,
    w: CoreExpr,
) -> Result<CoreExpr, Memory>
    requires first { IsIn (length types.now.forms) v }
    requires first_integer { integer (type_at types.now (type_of v)) ≡ true }
    requires second { IsIn (length types.now.forms) w }
    requires second_integer { integer (type_at types.now (type_of w)) ≡ true }
    ensures means { IfOk result (λ c. seen (type_at types.now) c ≡ combined_numbers operator line (seen (type_at types.now) v) (seen (type_at types.now) w)) }
    ensures within { IfOk result (λ c. IsIn (length types.now.forms) c) }
{
    let usual = usual_type(types, &v, &w);
    let signed = kinds::scalar(types, usual).signed;
    let v = converted(alloc, types, usual, v)?;
    let w = converted(alloc, types, usual, w)?;
    let what = CoreKind::Binary { operator, signed };
    with_two(alloc, what, usual, line, (v, w))
}

/// A shift, of which each operand is promoted by itself (C89 3.3.7).
pub fn shift(
    alloc: Global,
    types: &TypeTable,
    line: u32,
    operator: Binary,
    v: CoreExpr,
    w: CoreExpr,
) -> Result<CoreExpr, Memory>
    requires first { IsIn (length types.now.forms) v }
    requires first_integer { integer (type_at types.now (type_of v)) ≡ true }
    requires second { IsIn (length types.now.forms) w }
    requires second_integer { integer (type_at types.now (type_of w)) ≡ true }
    ensures means { IfOk result (λ c. seen (type_at types.now) c ≡ shifted operator line (seen (type_at types.now) v) (seen (type_at types.now) w)) }
    ensures within { IfOk result (λ c. IsIn (length types.now.forms) c) }
{
    let of = promoted_type(types, &v);
    let signed = kinds::scalar(types, of).signed;
    let v = promoted(alloc, types, v)?;
    let w = promoted(alloc, types, w)?;
    let what = CoreKind::Binary { operator, signed };
    with_two(alloc, what, of, line, (v, w))
}

/// The type that is a pointer, the first where both are.
fn pointer_among(types: &TypeTable, a: TypeId, b: TypeId) -> TypeId
    requires a { a < length types.now.forms }
    requires b { b < length types.now.forms }
    ensures means { type_at types.now result ≡ pointed_among (type_at types.now a) (type_at types.now b) }
    ensures within { result < length types.now.forms }
{
    if is_pointer(types, a) { a } else { b }
}

/// An operand of a pointer's move: the pointer, or an integer, which is promoted.
fn moving(alloc: Global, types: &TypeTable, v: CoreExpr) -> Result<CoreExpr, Memory>
    requires within { IsIn (length types.now.forms) v }
    requires scalar { is_scalar (type_at types.now (type_of v)) ≡ true }
    ensures means { IfOk result (λ c. seen (type_at types.now) c ≡ moving_part (seen (type_at types.now) v)) }
    ensures within { IfOk result (λ c. IsIn (length types.now.forms) c) }
{
    if is_pointer(types, v.of) {
        Ok(v)
    } else {
        promoted(alloc, types, v)
    }
}

/// A pointer moved by an integer's count of elements, with `back` to the elements before it (C89 3.3.6).
pub fn moved(
    alloc: Global,
    types: &TypeTable,
    line: u32,
    back: bool,
    v: CoreExpr,
    w: CoreExpr,
) -> Result<CoreExpr, Memory>
    requires first { IsIn (length types.now.forms) v }
    requires first_scalar { is_scalar (type_at types.now (type_of v)) ≡ true }
    requires second { IsIn (length types.now.forms) w }
    requires second_scalar { is_scalar (type_at types.now (type_of w)) ≡ true }
    ensures means { IfOk result (λ c. seen (type_at types.now) c ≡ moved_pointer (tags types.now) back line (seen (type_at types.now) v) (seen (type_at types.now) w)) }
    ensures within { IfOk result (λ c. IsIn (length types.now.forms) c) }
{
    let of = pointer_among(types, v.of, w.of);
    let size = target_size(types, of);
    let v = moving(alloc, types, v)?;
    let w = moving(alloc, types, w)?;
    with_two(alloc, CoreKind::Move { size, back }, of, line, (v, w))
}
