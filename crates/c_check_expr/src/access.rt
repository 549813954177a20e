//! Nodes that reach for places: subscripts, members, addresses and what pointers point to (C89 3.3.2.1,
//! 3.3.2.3, 3.3.3.2).
ghost use Rattle.std.specs.Prelude.{◌≡◌, ◌<◌, length, not, false, true, IfOk, IfErr};
ghost use Rattle.c_ast.specs.declared.operator.PrefixOperator.TheVariants as prefix;
ghost use Rattle.c_types.specs.Facts.{IsWithin};
ghost use Rattle.c_types.specs.Layout.{known};
ghost use Rattle.c_types.specs.Table.{Grows, tags, type_at};
ghost use Rattle.c_meaning.specs.CoreTrees.{IsIn, seen, type_of};
ghost use Rattle.c_meaning.specs.ExprConstraints.{is_addressable as addressable, is_no_subscript as no_subscript, points_to_object as points_at_object};
ghost use Rattle.c_meaning.specs.Nodes as node;
ghost use Rattle.c_meaning.specs.Rows.{moved as moved_pointer, pointed as pointed_by, pointer_among};
ghost use Rattle.c_meaning.specs.State.{State};
ghost use Rattle.c_meaning.specs.Types.{is_pointer as pointers, is_scalar, target as pointed_type};
ghost use Rattle.c_meaning.specs.Values.{value_type as type_of_value};
ghost use Rattle.c_check_expr.specs.AtNode.{Becomes, IsRefused};
ghost use Rattle.c_values.specs.Valued.{IsValueIn, valued};

use crate::member_access::{member_of_place, member_through_pointer};
use crate::operand_values::into_two_values;
use c_ast::MemberOperator;
use c_meaning::{CoreExpr, CoreKind};
use c_types::TypeTable;
use c_values::arithmetic::moved;
use c_values::forming::{into_value, pointer_type, with_one};
use c_values::places::{is_bit_field, is_lvalue, is_register};
use c_values::values::{is_integer, plain, target, value_type};
use c_values::{CheckFault, ValueType, kinds};
use lcc_base::Memory;
use std::alloc::Global;

/// `a[i]`.
pub(crate) fn subscript(
    alloc: Global,
    types: &mut TypeTable,
    line: u32,
    a: CoreExpr,
    i: CoreExpr,
) -> Result<CoreExpr, CheckFault>
    requires a { IsIn (length types.old.forms) a }
    requires i { IsIn (length types.old.forms) i }
    ensures ok { IfOk result (λ core. Becomes types.old line (node.Index (seen (type_at types.old) a) (seen (type_at types.old) i)) types.new core) }
    ensures err { IfErr result (λ e. IsRefused types.old line (node.Index (seen (type_at types.old) a) (seen (type_at types.old) i)) e) }
    ensures within { IfOk result (λ core. IsIn (length types.new.forms) core) }
    ensures grows { Grows types.old types.new }
{
    if !is_subscript(types, &a, &i) {
        return Err(CheckFault::Constraint { number: 32, line });
    }
    types.types_are_within_limits();
    let (v, w) = into_two_values(alloc, types, line, a, i)?;
    types.types_are_within_limits();
    Ok(element(alloc, types, line, v, w)?)
}

/// The element that a pointer and a count of elements reach.
fn element(
    alloc: Global,
    types: &TypeTable,
    line: u32,
    v: CoreExpr,
    w: CoreExpr,
) -> Result<CoreExpr, Memory>
    requires first { IsIn (length types.now.forms) v }
    requires first_scalar { is_scalar (type_at types.now (type_of v)) ≡ true }
    requires second { IsIn (length types.now.forms) w }
    requires second_scalar { is_scalar (type_at types.now (type_of w)) ≡ true }
    requires pointer { pointers (pointer_among (type_at types.now (type_of v)) (type_at types.now (type_of w))) ≡ true }
    ensures means { IfOk result (λ c. seen (type_at types.now) c ≡ pointed_by line (moved_pointer (tags types.now) false line (seen (type_at types.now) v) (seen (type_at types.now) w))) }
    ensures within { IfOk result (λ c. IsIn (length types.now.forms) c) }
{
    let p = moved(alloc, types, line, false, v, w)?;
    pointed(alloc, types, line, p)
}

/// Whether one is a pointer to an object and the other an integer. What the pointer points to then is
/// within the limits.
fn is_subscript(types: &TypeTable, a: &CoreExpr, i: &CoreExpr) -> bool
    requires a { IsIn (length types.now.forms) a.now }
    requires i { IsIn (length types.now.forms) i.now }
    ensures is { (s : State) → s.tags ≡ tags types.now → result ≡ not (no_subscript s (node.Index (seen (type_at types.now) a.now) (seen (type_at types.now) i.now))) }
    ensures limits { result ≡ true → IsWithin (known (tags types.now)) (pointed_type (pointer_among (type_of_value (seen (type_at types.now) a.now)) (type_of_value (seen (type_at types.now) i.now)))) }
{
    let first = value_type(types, a);
    let second = value_type(types, i);
    (points_to_object(types, first) && is_integer(types, second))
        || (is_integer(types, first) && points_to_object(types, second))
}

/// Whether it is a pointer to an object, whose type then is within the limits.
fn points_to_object(types: &TypeTable, v: ValueType) -> bool
    requires { IsValueIn (length types.now.forms) v }
    ensures is { result ≡ points_at_object (tags types.now) (valued types.now v) }
    ensures limits { result ≡ true → IsWithin (known (tags types.now)) (pointed_type (valued types.now v)) }
{
    types.types_are_within_limits();
    match target(types, v) {
        Some(to) => kinds::has_size(types, to),
        None => false,
    }
}

/// What a pointer points to.
pub(crate) fn pointed(
    alloc: Global,
    types: &TypeTable,
    line: u32,
    p: CoreExpr,
) -> Result<CoreExpr, Memory>
    requires within { IsIn (length types.now.forms) p }
    requires pointer { pointers (type_at types.now (type_of p)) ≡ true }
    ensures means { IfOk result (λ c. seen (type_at types.now) c ≡ pointed_by line (seen (type_at types.now) p)) }
    ensures within { IfOk result (λ c. IsIn (length types.now.forms) c) }
{
    match kinds::target(types, p.of) {
        Some(to) => with_one(alloc, CoreKind::Pointed, to, line, p),
        None => unreachable!(),
    }
}

/// `a.m` or `a->m`.
pub(crate) fn select(
    alloc: Global,
    types: &mut TypeTable,
    line: u32,
    op: MemberOperator,
    a: CoreExpr,
    name: &[u8],
) -> Result<CoreExpr, CheckFault>
    requires { IsIn (length types.old.forms) a }
    ensures ok { IfOk result (λ core. Becomes types.old line (node.Member op (seen (type_at types.old) a) name.now) types.new core) }
    ensures err { IfErr result (λ e. IsRefused types.old line (node.Member op (seen (type_at types.old) a) name.now) e) }
    ensures within { IfOk result (λ core. IsIn (length types.new.forms) core) }
    ensures grows { Grows types.old types.new }
{
    // Each name of a source has a character.
    if name.is_empty() {
        return Err(CheckFault::Memory);
    }
    match op {
        MemberOperator::Dot => member_of_place(alloc, types, line, a, name),
        MemberOperator::Arrow => member_through_pointer(alloc, types, line, a, name),
    }
}

/// `&a`.
pub(crate) fn address(
    alloc: Global,
    types: &mut TypeTable,
    line: u32,
    a: CoreExpr,
) -> Result<CoreExpr, CheckFault>
    requires { IsIn (length types.old.forms) a }
    ensures ok { IfOk result (λ core. Becomes types.old line (node.Prefix prefix.Address (seen (type_at types.old) a)) types.new core) }
    ensures err { IfErr result (λ e. IsRefused types.old line (node.Prefix prefix.Address (seen (type_at types.old) a)) e) }
    ensures within { IfOk result (λ core. IsIn (length types.new.forms) core) }
    ensures grows { Grows types.old types.new }
{
    if !is_addressable(types, &a) {
        return Err(CheckFault::Constraint { number: 35, line });
    }
    types.types_are_within_limits();
    let of = pointer_type(types, line, plain(a.of))?;
    Ok(with_one(alloc, CoreKind::Address, of, line, a)?)
}

/// Whether it has an address: it is a function, or an lvalue that is no bit-field and not declared
/// register.
fn is_addressable(types: &TypeTable, a: &CoreExpr) -> bool
    requires { IsIn (length types.now.forms) a.now }
    ensures { result ≡ addressable (seen (type_at types.now) a.now) }
{
    kinds::is_function(types, a.of)
        || (is_lvalue(a) && !(kinds::is_void(types, a.of) || is_bit_field(a) || is_register(a)))
}

/// `*a`.
pub(crate) fn indirect(
    alloc: Global,
    types: &mut TypeTable,
    line: u32,
    a: CoreExpr,
) -> Result<CoreExpr, CheckFault>
    requires { IsIn (length types.old.forms) a }
    ensures ok { IfOk result (λ core. Becomes types.old line (node.Prefix prefix.Indirect (seen (type_at types.old) a)) types.new core) }
    ensures err { IfErr result (λ e. IsRefused types.old line (node.Prefix prefix.Indirect (seen (type_at types.old) a)) e) }
    ensures within { IfOk result (λ core. IsIn (length types.new.forms) core) }
    ensures grows { Grows types.old types.new }
{
    if !has_target(types, value_type(types, &a)) {
        return Err(CheckFault::Constraint { number: 36, line });
    }
    types.types_are_within_limits();
    let v = into_value(alloc, types, line, a)?;
    Ok(pointed(alloc, types, line, v)?)
}

/// Whether it is a pointer. What it points to then is within the limits.
fn has_target(types: &TypeTable, v: ValueType) -> bool
    requires { IsValueIn (length types.now.forms) v }
    ensures is { result ≡ pointers (valued types.now v) }
    ensures limits { result ≡ true → IsWithin (known (tags types.now)) (pointed_type (valued types.now v)) }
{
    types.types_are_within_limits();
    target(types, v).is_some()
}
