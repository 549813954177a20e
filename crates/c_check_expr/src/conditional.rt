//! Nodes of `?:` (C89 3.3.15).
ghost use Rattle.std.specs.Prelude.{◌≡◌, ◌<◌, length, true, IfOk, IfErr};
ghost use Rattle.c_types.specs.CType.{unqualified};
ghost use Rattle.c_types.specs.Composite.{composite};
ghost use Rattle.c_types.specs.Table.{Grows, tags, type_at};
ghost use Rattle.c_meaning.specs.Constraints.{constraints, first_broken};
ghost use Rattle.c_meaning.specs.CoreTrees.{IsIn, seen, type_of};
ghost use Rattle.c_meaning.specs.ExprConstraints.{can_choose as choosable, pointers_fit, targets_fit};
ghost use Rattle.c_meaning.specs.Nodes as node;
ghost use Rattle.c_meaning.specs.Rows.{chosen as choice, chosen_part as part_chosen, chosen_type as type_chosen, common_target as target_of_both, pointer_chosen as pointer_of_both};
ghost use Rattle.c_meaning.specs.State.{State};
ghost use Rattle.c_meaning.specs.Types.{alike, is_pointer as pointers, pointer_to, target as pointed};
ghost use Rattle.c_values.specs.TooDeep.{IsTooDeep};
ghost use Rattle.c_check_expr.specs.AtNode.{Becomes, IsRefused};
ghost use Rattle.c_values.specs.Valued.{qualified_in};

use crate::operand_values::into_three_values;
use c_meaning::{CoreExpr, CoreKind};
use c_types::{TypeId, TypeTable};
use c_values::arithmetic::is_pointer;
use c_values::basic_places::VOID;
use c_values::forming::{converted, pointer_type, usual_type, with_three};
use c_values::nulls::is_null;
use c_values::operand_tests::{can_choose, is_open_record};
use c_values::values::{is_scalar, value_type};
use c_values::{CheckFault, QualifiedType, kinds};
use lcc_base::Memory;
use std::alloc::Global;

/// The number of the first constraint that the operands break.
fn broken(types: &TypeTable, a: &CoreExpr, b: &CoreExpr, c: &CoreExpr) -> Option<u8>
    requires a { IsIn (length types.now.forms) a.now }
    requires b { IsIn (length types.now.forms) b.now }
    requires c { IsIn (length types.now.forms) c.now }
    ensures { (s : State) → s.tags ≡ tags types.now → first_broken constraints s (node.Expression (node.Conditional (seen (type_at types.now) a.now) (seen (type_at types.now) b.now) (seen (type_at types.now) c.now))) ≡ result }
{
    let second = value_type(types, b);
    let third = value_type(types, c);
    if !is_scalar(types, value_type(types, a)) {
        Some(43)
    } else if !can_choose(types, b, c) {
        Some(44)
    } else if is_open_record(types, second) || is_open_record(types, third) {
        Some(46)
    } else {
        None
    }
}

/// The composite of the two types without their qualifiers.
fn bare_composite(types: &mut TypeTable, a: TypeId, b: TypeId) -> Result<TypeId, Memory>
    requires a { a < length types.old.forms }
    requires b { b < length types.old.forms }
    requires fits { alike (type_at types.old a) (type_at types.old b) ≡ true }
    ensures means { IfOk result (λ id. type_at types.new id ≡ composite (unqualified (type_at types.old a)) (unqualified (type_at types.old b))) }
    ensures within { IfOk result (λ id. id < length types.new.forms) }
    ensures grows { Grows types.old types.new }
{
    let x = kinds::unqualified_type(types, a);
    let y = kinds::unqualified_type(types, b);
    types.composite(x, y)
}

/// What pointers to both types become pointers to: their composite, or void where one of them is, with
/// the qualifiers of both.
fn common_target(types: &mut TypeTable, a: TypeId, b: TypeId) -> Result<QualifiedType, Memory>
    requires a { a < length types.old.forms }
    requires b { b < length types.old.forms }
    requires fits { targets_fit (type_at types.old a) (type_at types.old b) ≡ true }
    ensures means { IfOk result (λ q. qualified_in types.new q ≡ target_of_both (type_at types.old a) (type_at types.old b)) }
    ensures within { IfOk result (λ q. q.of < length types.new.forms) }
    ensures grows { Grows types.old types.new }
{
    let qualifiers = kinds::qualifiers(types, a).with(kinds::qualifiers(types, b));
    if kinds::is_void(types, a) || kinds::is_void(types, b) {
        let of = types.basic_type(VOID);
        return Ok(QualifiedType { of, qualifiers });
    }
    let of = bare_composite(types, a, b)?;
    Ok(QualifiedType { of, qualifiers })
}

/// The pointer that pointers to both types become.
fn common_pointer(
    types: &mut TypeTable,
    line: u32,
    a: TypeId,
    b: TypeId,
) -> Result<TypeId, CheckFault>
    requires a { a < length types.old.forms }
    requires b { b < length types.old.forms }
    requires fits { targets_fit (type_at types.old a) (type_at types.old b) ≡ true }
    ensures means { IfOk result (λ id. type_at types.new id ≡ pointer_to (target_of_both (type_at types.old a) (type_at types.old b))) }
    ensures within { IfOk result (λ id. id < length types.new.forms) }
    ensures deep { IfErr result (λ e. IsTooDeep e line (pointer_to (target_of_both (type_at types.old a) (type_at types.old b)))) }
    ensures grows { Grows types.old types.new }
{
    let to = common_target(types, a, b)?;
    pointer_type(types, line, to)
}

/// What the pointer points to.
fn target(types: &TypeTable, id: TypeId) -> TypeId
    requires within { id < length types.now.forms }
    requires pointer { pointers (type_at types.now id) ≡ true }
    ensures means { type_at types.now result ≡ pointed (type_at types.now id) }
    ensures within { result < length types.now.forms }
{
    match kinds::target(types, id) {
        Some(to) => to,
        None => unreachable!(),
    }
}

/// The type of a choice between pointers: beside a null pointer constant, the other's.
fn pointer_chosen(
    types: &mut TypeTable,
    line: u32,
    v: &CoreExpr,
    w: &CoreExpr,
) -> Result<TypeId, CheckFault>
    requires first { IsIn (length types.old.forms) v.now }
    requires second { IsIn (length types.old.forms) w.now }
    requires fits { pointers_fit (seen (type_at types.old) v.now) (seen (type_at types.old) w.now) ≡ true }
    ensures means { IfOk result (λ id. type_at types.new id ≡ pointer_of_both (seen (type_at types.old) v.now) (seen (type_at types.old) w.now)) }
    ensures within { IfOk result (λ id. id < length types.new.forms) }
    ensures deep { IfErr result (λ e. IsTooDeep e line (pointer_of_both (seen (type_at types.old) v.now) (seen (type_at types.old) w.now))) }
    ensures grows { Grows types.old types.new }
{
    if is_null(types, v) && is_pointer(types, w.of) {
        return Ok(w.of);
    }
    if is_null(types, w) {
        return Ok(v.of);
    }
    let a = target(types, v.of);
    let b = target(types, w.of);
    common_pointer(types, line, a, b)
}

/// The type of a choice between two values.
fn chosen_type(
    types: &mut TypeTable,
    line: u32,
    v: &CoreExpr,
    w: &CoreExpr,
) -> Result<TypeId, CheckFault>
    requires first { IsIn (length types.old.forms) v.now }
    requires second { IsIn (length types.old.forms) w.now }
    requires fits { choosable (seen (type_at types.old) v.now) (seen (type_at types.old) w.now) ≡ true }
    ensures means { IfOk result (λ id. type_at types.new id ≡ type_chosen (seen (type_at types.old) v.now) (seen (type_at types.old) w.now)) }
    ensures within { IfOk result (λ id. id < length types.new.forms) }
    ensures deep { IfErr result (λ e. IsTooDeep e line (type_chosen (seen (type_at types.old) v.now) (seen (type_at types.old) w.now))) }
    ensures grows { Grows types.old types.new }
{
    if kinds::is_integer(types, v.of) && kinds::is_integer(types, w.of) {
        Ok(usual_type(types, v, w))
    } else if is_pointer(types, v.of) || is_pointer(types, w.of) {
        pointer_chosen(types, line, v, w)
    } else {
        Ok(kinds::unqualified_type(types, v.of))
    }
}

/// A value at the type of the choice. A structure stays a place.
fn chosen_part(
    alloc: Global,
    types: &TypeTable,
    of: TypeId,
    v: CoreExpr,
) -> Result<CoreExpr, Memory>
    requires of { of < length types.now.forms }
    requires within { IsIn (length types.now.forms) v }
    ensures means { IfOk result (λ c. seen (type_at types.now) c ≡ part_chosen (type_at types.now of) (seen (type_at types.now) v)) }
    ensures within { IfOk result (λ c. IsIn (length types.now.forms) c) }
{
    if kinds::is_scalar(types, of) {
        converted(alloc, types, of, v)
    } else {
        Ok(v)
    }
}

/// The choice between two values by a test.
fn chosen(
    alloc: Global,
    types: &TypeTable,
    line: u32,
    of: TypeId,
    u: CoreExpr,
    parts: (CoreExpr, CoreExpr),
) -> Result<CoreExpr, Memory>
    requires of { of < length types.now.forms }
    requires test { IsIn (length types.now.forms) u }
    requires first { IsIn (length types.now.forms) parts.0 }
    requires second { IsIn (length types.now.forms) parts.1 }
    ensures means { IfOk result (λ c. seen (type_at types.now) c ≡ choice (type_at types.now of) line (seen (type_at types.now) u) (seen (type_at types.now) parts.0) (seen (type_at types.now) parts.1)) }
    ensures within { IfOk result (λ c. IsIn (length types.now.forms) c) }
{
    let (v, w) = parts;
    let v = chosen_part(alloc, types, of, v)?;
    let w = chosen_part(alloc, types, of, w)?;
    with_three(alloc, CoreKind::Conditional, of, line, (u, v, w))
}

/// `a ? b : c`.
pub(crate) fn conditional(
    alloc: Global,
    types: &mut TypeTable,
    line: u32,
    a: CoreExpr,
    b: CoreExpr,
    c: CoreExpr,
) -> Result<CoreExpr, CheckFault>
    requires a { IsIn (length types.old.forms) a }
    requires b { IsIn (length types.old.forms) b }
    requires c { IsIn (length types.old.forms) c }
    ensures ok { IfOk result (λ core. Becomes types.old line (node.Conditional (seen (type_at types.old) a) (seen (type_at types.old) b) (seen (type_at types.old) c)) types.new core) }
    ensures err { IfErr result (λ e. IsRefused types.old line (node.Conditional (seen (type_at types.old) a) (seen (type_at types.old) b) (seen (type_at types.old) c)) e) }
    ensures within { IfOk result (λ core. IsIn (length types.new.forms) core) }
    ensures grows { Grows types.old types.new }
{
    types.types_are_within_limits();
    if let Some(number) = broken(types, &a, &b, &c) {
        return Err(CheckFault::Constraint { number, line });
    }
    let (u, v, w) = into_three_values(alloc, types, line, a, b, c)?;
    let of = chosen_type(types, line, &v, &w)?;
    types.types_are_within_limits();
    let core = chosen(alloc, types, line, of, u, (v, w))?;
    Ok(core)
}
