//! What operators ask of two operands (C89 3.3.5 to 3.3.15).
ghost use Rattle.std.specs.Prelude.{◌≡◌, ◌<◌, ◌&&◌, length, not};
ghost use Rattle.c_types.specs.Table.{tags, type_at};
ghost use Rattle.c_meaning.specs.CoreTrees.{IsIn, seen};
ghost use Rattle.c_meaning.specs.ExprConstraints.{are_integers as integers, are_ordered as ordered, can_add as addable, can_choose as choosable, can_combine as combinable, can_compare as comparable, can_equal as equatable, can_order as orderable, can_subtract as subtractable, can_test as testable, cannot_move as immovable, differ_in_targets as differing, have_order as in_order, is_open_record as open_record, is_void_beside as void_beside, moves_nowhere as unmoving, pointers_fit as fitting_pointers, targets_fit as fitting_targets};
ghost use Rattle.c_meaning.specs.Types.{alike, is_pointer as pointer, is_record as record_type, target as pointed};
ghost use Rattle.c_meaning.specs.Values.{value};
ghost use Rattle.c_values.specs.Valued.{IsValueIn, qualified_in, valued};

use crate::assigning::is_sized;
use crate::kinds;
use crate::nulls::is_null_value;
use crate::value_type::{QualifiedType, ValueType};
use crate::values::{
    is_function_under, is_integer, is_pointer, is_record, is_scalar, is_void, is_void_under, plain,
    target, value_type,
};
use c_ast::BinaryOperator;
use c_meaning::CoreExpr;
use c_types::TypeTable;

/// Whether both are integers.
pub fn are_integers(types: &TypeTable, t: ValueType, u: ValueType) -> bool
    requires t { IsValueIn (length types.now.forms) t }
    requires u { IsValueIn (length types.now.forms) u }
    ensures { result ≡ integers (valued types.now t) (valued types.now u) }
{
    is_integer(types, t) && is_integer(types, u)
}

/// Whether they can be added: two integers, or a pointer and an integer.
fn can_add(types: &TypeTable, t: ValueType, u: ValueType) -> bool
    requires t { IsValueIn (length types.now.forms) t }
    requires u { IsValueIn (length types.now.forms) u }
    ensures { result ≡ addable (valued types.now t) (valued types.now u) }
{
    are_integers(types, t, u)
        || (is_pointer(types, t) && is_integer(types, u))
        || (is_integer(types, t) && is_pointer(types, u))
}

/// Whether the second can be subtracted from the first: an integer from an integer or a pointer, or a
/// pointer from a pointer.
fn can_subtract(types: &TypeTable, t: ValueType, u: ValueType) -> bool
    requires t { IsValueIn (length types.now.forms) t }
    requires u { IsValueIn (length types.now.forms) u }
    ensures { result ≡ subtractable (valued types.now t) (valued types.now u) }
{
    are_integers(types, t, u)
        || (is_pointer(types, t) && is_integer(types, u))
        || (is_pointer(types, t) && is_pointer(types, u))
}

/// Whether the operands are of the kinds that an arithmetic, bit or shift operator takes. Those of
/// comparisons, `&&` and `||` are tested by themselves.
pub fn can_combine(types: &TypeTable, op: BinaryOperator, t: ValueType, u: ValueType) -> bool
    requires t { IsValueIn (length types.now.forms) t }
    requires u { IsValueIn (length types.now.forms) u }
    ensures { result ≡ combinable op (valued types.now t) (valued types.now u) }
{
    match op {
        BinaryOperator::Or
        | BinaryOperator::And
        | BinaryOperator::Equal
        | BinaryOperator::NotEqual
        | BinaryOperator::Less
        | BinaryOperator::Greater
        | BinaryOperator::LessEqual
        | BinaryOperator::GreaterEqual => true,
        BinaryOperator::Add => can_add(types, t, u),
        BinaryOperator::Subtract => can_subtract(types, t, u),
        _ => are_integers(types, t, u),
    }
}

/// Whether it is a pointer that can't move by elements: they have no size.
fn moves_nowhere(types: &TypeTable, t: ValueType) -> bool
    requires { IsValueIn (length types.now.forms) t }
    ensures { result ≡ unmoving (tags types.now) (valued types.now t) }
{
    match target(types, t) {
        Some(to) => !kinds::has_size(types, to),
        None => false,
    }
}

/// Whether they are pointers to types that aren't compatible.
fn differ_in_targets(types: &TypeTable, t: ValueType, u: ValueType) -> bool
    requires t { IsValueIn (length types.now.forms) t }
    requires u { IsValueIn (length types.now.forms) u }
    ensures { result ≡ differing (valued types.now t) (valued types.now u) }
{
    match target(types, t) {
        Some(a) => match target(types, u) {
            Some(b) => !kinds::are_types_alike(types, a, b),
            None => false,
        },
        None => false,
    }
}

/// Whether one is a pointer that the operator can't move, or they are pointers that have no difference.
pub fn cannot_move(types: &TypeTable, op: BinaryOperator, t: ValueType, u: ValueType) -> bool
    requires t { IsValueIn (length types.now.forms) t }
    requires u { IsValueIn (length types.now.forms) u }
    ensures { result ≡ immovable (tags types.now) op (valued types.now t) (valued types.now u) }
{
    match op {
        BinaryOperator::Add => moves_nowhere(types, t) || moves_nowhere(types, u),
        BinaryOperator::Subtract => {
            moves_nowhere(types, t) || moves_nowhere(types, u) || differ_in_targets(types, t, u)
        }
        _ => false,
    }
}

/// Whether the first is void, and the second no function.
fn is_void_beside(types: &TypeTable, t: QualifiedType, u: QualifiedType) -> bool
    requires t { t.of < length types.now.forms }
    requires u { u.of < length types.now.forms }
    ensures { result ≡ void_beside (qualified_in types.now t) (qualified_in types.now u) }
{
    is_void_under(types, t) && !is_function_under(types, u)
}

/// Whether pointers to the two fit: the two are compatible, or one is void and the other no function.
fn do_targets_fit(types: &TypeTable, t: QualifiedType, u: QualifiedType) -> bool
    requires t { t.of < length types.now.forms }
    requires u { u.of < length types.now.forms }
    ensures { result ≡ fitting_targets (qualified_in types.now t) (qualified_in types.now u) }
{
    kinds::are_types_alike(types, t, u)
        || is_void_beside(types, t, u)
        || is_void_beside(types, u, t)
}

/// Whether both are pointers that fit.
fn do_types_fit(types: &TypeTable, t: ValueType, u: ValueType) -> bool
    requires t { IsValueIn (length types.now.forms) t }
    requires u { IsValueIn (length types.now.forms) u }
    ensures { result ≡ ((pointer (valued types.now t) && pointer (valued types.now u)) && fitting_targets (pointed (valued types.now t)) (pointed (valued types.now u))) }
{
    match target(types, t) {
        Some(a) => match target(types, u) {
            Some(b) => do_targets_fit(types, a, b),
            None => false,
        },
        None => false,
    }
}

/// Whether the values are a pointer and one that fits, or a pointer and a null pointer constant.
fn do_pointers_fit(types: &TypeTable, a: &CoreExpr, b: &CoreExpr) -> bool
    requires a { IsIn (length types.now.forms) a.now }
    requires b { IsIn (length types.now.forms) b.now }
    ensures { result ≡ fitting_pointers (value (seen (type_at types.now) a.now)) (value (seen (type_at types.now) b.now)) }
{
    let t = value_type(types, a);
    let u = value_type(types, b);
    (is_pointer(types, t) && is_null_value(types, b))
        || (is_null_value(types, a) && is_pointer(types, u))
        || do_types_fit(types, t, u)
}

/// Whether the values can be compared for equality.
fn can_equal(types: &TypeTable, a: &CoreExpr, b: &CoreExpr) -> bool
    requires a { IsIn (length types.now.forms) a.now }
    requires b { IsIn (length types.now.forms) b.now }
    ensures { result ≡ equatable (value (seen (type_at types.now) a.now)) (value (seen (type_at types.now) b.now)) }
{
    are_integers(types, value_type(types, a), value_type(types, b)) || do_pointers_fit(types, a, b)
}

/// Whether objects of the two have an order: the types are compatible, no functions, and both complete
/// or both incomplete.
fn are_ordered(types: &TypeTable, t: QualifiedType, u: QualifiedType) -> bool
    requires t { t.of < length types.now.forms }
    requires u { u.of < length types.now.forms }
    ensures { result ≡ ordered (tags types.now) (qualified_in types.now t) (qualified_in types.now u) }
{
    kinds::are_types_alike(types, t, u)
        && !is_function_under(types, t)
        && kinds::has_size(types, t) == kinds::has_size(types, u)
}

/// Whether both are pointers to objects that have an order.
fn have_order(types: &TypeTable, t: ValueType, u: ValueType) -> bool
    requires t { IsValueIn (length types.now.forms) t }
    requires u { IsValueIn (length types.now.forms) u }
    ensures { result ≡ in_order (tags types.now) (valued types.now t) (valued types.now u) }
{
    match target(types, t) {
        Some(a) => match target(types, u) {
            Some(b) => are_ordered(types, a, b),
            None => false,
        },
        None => false,
    }
}

/// Whether the values can be compared by order.
fn can_order(types: &TypeTable, a: &CoreExpr, b: &CoreExpr) -> bool
    requires a { IsIn (length types.now.forms) a.now }
    requires b { IsIn (length types.now.forms) b.now }
    ensures { result ≡ orderable (tags types.now) (value (seen (type_at types.now) a.now)) (value (seen (type_at types.now) b.now)) }
{
    let t = value_type(types, a);
    let u = value_type(types, b);
    are_integers(types, t, u) || have_order(types, t, u)
}

/// Whether the values can be compared, where the operator compares.
pub fn can_compare(types: &TypeTable, op: BinaryOperator, a: &CoreExpr, b: &CoreExpr) -> bool
    requires a { IsIn (length types.now.forms) a.now }
    requires b { IsIn (length types.now.forms) b.now }
    ensures { result ≡ comparable (tags types.now) op (value (seen (type_at types.now) a.now)) (value (seen (type_at types.now) b.now)) }
{
    match op {
        BinaryOperator::Equal | BinaryOperator::NotEqual => can_equal(types, a, b),
        BinaryOperator::Less
        | BinaryOperator::Greater
        | BinaryOperator::LessEqual
        | BinaryOperator::GreaterEqual => can_order(types, a, b),
        _ => true,
    }
}

/// Whether both are scalars, where the operator is `&&` or `||`.
pub fn can_test(types: &TypeTable, op: BinaryOperator, t: ValueType, u: ValueType) -> bool
    requires t { IsValueIn (length types.now.forms) t }
    requires u { IsValueIn (length types.now.forms) u }
    ensures { result ≡ testable op (valued types.now t) (valued types.now u) }
{
    match op {
        BinaryOperator::Or | BinaryOperator::And => is_scalar(types, t) && is_scalar(types, u),
        _ => true,
    }
}

/// Whether the first is a structure or union, and the second compatible with it.
fn are_records_alike(types: &TypeTable, t: ValueType, u: ValueType) -> bool
    requires t { IsValueIn (length types.now.forms) t }
    requires u { IsValueIn (length types.now.forms) u }
    ensures { result ≡ (record_type (valued types.now t) && alike (valued types.now t) (valued types.now u)) }
{
    match t {
        ValueType::Own(a) => match u {
            ValueType::Own(b) => {
                kinds::is_record(types, a) && kinds::are_types_alike(types, plain(a), plain(b))
            }
            ValueType::PointerTo(_) => false,
        },
        ValueType::PointerTo(_) => false,
    }
}

/// Whether one of the values can be chosen: both are arithmetic, compatible structures, void, or
/// pointers that fit.
pub fn can_choose(types: &TypeTable, a: &CoreExpr, b: &CoreExpr) -> bool
    requires a { IsIn (length types.now.forms) a.now }
    requires b { IsIn (length types.now.forms) b.now }
    ensures { result ≡ choosable (value (seen (type_at types.now) a.now)) (value (seen (type_at types.now) b.now)) }
{
    let t = value_type(types, a);
    let u = value_type(types, b);
    are_integers(types, t, u)
        || are_records_alike(types, t, u)
        || (is_void(types, t) && is_void(types, u))
        || do_pointers_fit(types, a, b)
}

/// Whether it is a structure or union without members so far.
pub fn is_open_record(types: &TypeTable, t: ValueType) -> bool
    requires { IsValueIn (length types.now.forms) t }
    ensures { result ≡ open_record (tags types.now) (valued types.now t) }
{
    is_record(types, t) && !is_sized(types, t)
}
