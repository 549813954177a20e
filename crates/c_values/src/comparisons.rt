//! Comparisons of numbers and of pointers (C89 3.3.8, 3.3.9).
ghost use Rattle.std.specs.Prelude.{◌≡◌, ◌<◌, ◌||◌, length, true, IfOk};
ghost use Rattle.c_types.specs.Conversions.{is_integer as integer};
ghost use Rattle.c_types.specs.Table.{type_at};
ghost use Rattle.c_meaning.specs.CoreTrees.{IsIn, seen, type_of};
ghost use Rattle.c_meaning.specs.ExprConstraints.{are_integers};
ghost use Rattle.c_meaning.specs.Rows.{beside as placed_beside, compared as are_compared};
ghost use Rattle.c_meaning.specs.Types.{is_pointer as pointers};

use crate::arithmetic::is_pointer;
use crate::basic_places::INT;
use crate::forming::{converted, usual_type, with_two};
use crate::kinds;
use c_meaning::{CoreExpr, CoreKind};
use c_types::{TypeId, TypeTable};
use lcc_base::Memory;
use objects::Comparison;
use std::alloc::Global;

/// The operand of a comparison beside a pointer: a pointer, or a null pointer constant, which takes the
/// other's type.
fn beside(alloc: Global, types: &TypeTable, other: TypeId, v: CoreExpr) -> Result<CoreExpr, Memory>
    requires other { other < length types.now.forms }
    requires within { IsIn (length types.now.forms) v }
    ensures means { IfOk result (λ c. seen (type_at types.now) c ≡ placed_beside (type_at types.now other) (seen (type_at types.now) v)) }
    ensures within { IfOk result (λ c. IsIn (length types.now.forms) c) }
{
    if is_pointer(types, v.of) {
        Ok(v)
    } else {
        converted(alloc, types, other, v)
    }
}

/// Two pointers, or a pointer and a null pointer constant, compared.
fn compared_pointers(
    alloc: Global,
    types: &TypeTable,
    line: u32,
    operator: Comparison,
    v: CoreExpr,
    w: CoreExpr,
) -> Result<CoreExpr, Memory>
    requires first { IsIn (length types.now.forms) v }
    requires second { IsIn (length types.now.forms) w }
    requires pointer { (pointers (type_at types.now (type_of v)) || pointers (type_at types.now (type_of w))) ≡ true }
    ensures means { IfOk result (λ c. seen (type_at types.now) c ≡ are_compared operator line (seen (type_at types.now) v) (seen (type_at types.now) w)) }
    ensures within { IfOk result (λ c. IsIn (length types.now.forms) c) }
{
    let (first, second) = (v.of, w.of);
    let v = beside(alloc, types, second, v)?;
    let w = beside(alloc, types, first, w)?;
    let what = CoreKind::Compare {
        operator,
        signed: false,
    };
    with_two(alloc, what, types.basic_type(INT), line, (v, w))
}

/// Two numbers compared, at the type of the usual arithmetic conversions (C89 3.2.1.5).
#[tactic(auto, using(crate::proofs::Operands::integer_no_pointer))]
fn compared_numbers(
    alloc: Global,
    types: &TypeTable,
    line: u32,
    operator: Comparison,
    v: CoreExpr,
    w: CoreExpr,
) -> Result<CoreExpr, Memory>
    requires first { IsIn (length types.now.forms) v }
    requires first_integer { integer (type_at types.now (type_of v)) ≡ true }
    requires second { IsIn (length types.now.forms) w }
    requires second_integer { integer (type_at types.now (type_of w)) ≡ true }
    ensures means { IfOk result (λ c. seen (type_at types.now) c ≡ are_compared operator line (seen (type_at types.now) v) (seen (type_at types.now) w)) }
    ensures within { IfOk result (λ c. IsIn (length types.now.forms) c) }
{
    let usual = usual_type(types, &v, &w);
    let signed = kinds::scalar(types, usual).signed;
    let v = converted(alloc, types, usual, v)?;
    let w = converted(alloc, types, usual, w)?;
    let what = CoreKind::Compare { operator, signed };
    with_two(alloc, what, types.basic_type(INT), line, (v, w))
}

/// `v == w` and the like.
pub fn compared(
    alloc: Global,
    types: &TypeTable,
    line: u32,
    operator: Comparison,
    v: CoreExpr,
    w: CoreExpr,
) -> Result<CoreExpr, Memory>
    requires first { IsIn (length types.now.forms) v }
    requires second { IsIn (length types.now.forms) w }
    requires fits { (are_integers (type_at types.now (type_of v)) (type_at types.now (type_of w)) || (pointers (type_at types.now (type_of v)) || pointers (type_at types.now (type_of w)))) ≡ true }
    ensures means { IfOk result (λ c. seen (type_at types.now) c ≡ are_compared operator line (seen (type_at types.now) v) (seen (type_at types.now) w)) }
    ensures within { IfOk result (λ c. IsIn (length types.now.forms) c) }
{
    if is_pointer(types, v.of) || is_pointer(types, w.of) {
        compared_pointers(alloc, types, line, operator, v, w)
    } else {
        compared_numbers(alloc, types, line, operator, v, w)
    }
}
