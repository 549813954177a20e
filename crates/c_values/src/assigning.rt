//! What may be assigned and handed over (C89 3.3.16.1, 3.3.2.2).
ghost use Rattle.std.specs.Prelude.{◌≡◌, ◌<◌, ◌&&◌, ◌||◌, length, true};
ghost use Rattle.c_types.specs.Table.{tags, type_at};
ghost use Rattle.c_meaning.specs.CoreTrees.{IsIn, seen};
ghost use Rattle.c_meaning.specs.ExprConstraints.{is_assignable as assignable, is_passable as passable, points_alike as alike_pointers};
ghost use Rattle.c_meaning.specs.Types.{alike, has_size, is_pointer, is_record as is_record_type, target as pointed};
ghost use Rattle.c_meaning.specs.Constants.{is_null as null};
ghost use Rattle.c_meaning.specs.Values.{value, value_type as type_of_value};
ghost use Rattle.c_values.specs.Valued.{IsValueIn, qualified_in, valued};

use crate::kinds;
use crate::nulls::is_null_value;
use crate::value_type::{QualifiedType, ValueType};
use crate::values::{
    is_integer, is_record, is_scalar, is_void_under, plain, qualifiers_under, target, value_type,
};
use c_meaning::CoreExpr;
use c_types::{TypeId, TypeTable};

/// Whether a pointer to the second type may be assigned to a pointer to the first: they point to
/// compatible types, or one to void, and the first has at least the qualifiers of the second.
pub fn point_alike(types: &TypeTable, to: QualifiedType, from: QualifiedType) -> bool
    requires to { to.of < length types.now.forms }
    requires from { from.of < length types.now.forms }
    ensures { result ≡ alike_pointers (qualified_in types.now to) (qualified_in types.now from) }
{
    let more = qualifiers_under(types, to).number();
    let others = qualifiers_under(types, from).number();
    more | others == more
        && (kinds::are_types_alike(types, to, from)
            || is_void_under(types, to)
            || is_void_under(types, from))
}

/// Whether the expression's value may be assigned to an object of the type: arithmetic to arithmetic,
/// compatible structures, pointers as above, and a null pointer constant to a pointer.
pub fn is_assignable(types: &TypeTable, to: TypeId, c: &CoreExpr) -> bool
    requires to { to < length types.now.forms }
    requires within { IsIn (length types.now.forms) c.now }
    ensures { result ≡ assignable (type_at types.now to) (value (seen (type_at types.now) c.now)) }
{
    let from = value_type(types, c);
    if kinds::is_integer(types, to) && is_integer(types, from) {
        return true;
    }
    if kinds::is_record(types, to) && is_record_alike(types, to, from) {
        return true;
    }
    is_pointer_assignable(types, to, c)
}

/// Whether the type is a pointer, and the value a pointer that points alike, or a null pointer constant.
fn is_pointer_assignable(types: &TypeTable, to: TypeId, c: &CoreExpr) -> bool
    requires to { to < length types.now.forms }
    requires within { IsIn (length types.now.forms) c.now }
    ensures { result ≡ (is_pointer (type_at types.now to) && ((is_pointer (type_of_value (seen (type_at types.now) c.now)) && alike_pointers (pointed (type_at types.now to)) (pointed (type_of_value (seen (type_at types.now) c.now)))) || null (value (seen (type_at types.now) c.now)))) }
{
    match kinds::target(types, to) {
        Some(pointed) => {
            if is_pointer_alike(types, pointed, value_type(types, c)) {
                return true;
            }
            is_null_value(types, c)
        }
        None => false,
    }
}

/// Whether the value's type is alike, where it isn't a pointer that is yet to be made.
fn is_record_alike(types: &TypeTable, to: TypeId, from: ValueType) -> bool
    requires to { to < length types.now.forms }
    requires record { is_record_type (type_at types.now to) ≡ true }
    requires from { IsValueIn (length types.now.forms) from }
    ensures { result ≡ alike (type_at types.now to) (valued types.now from) }
{
    match from {
        ValueType::Own(id) => kinds::are_types_alike(types, plain(to), plain(id)),
        ValueType::PointerTo(_) => false,
    }
}

/// Whether it is a pointer that points alike.
fn is_pointer_alike(types: &TypeTable, to: TypeId, from: ValueType) -> bool
    requires to { to < length types.now.forms }
    requires from { IsValueIn (length types.now.forms) from }
    ensures { result ≡ (is_pointer (valued types.now from) && alike_pointers (type_at types.now to) (pointed (valued types.now from))) }
{
    match target(types, from) {
        Some(pointed) => point_alike(types, plain(to), pointed),
        None => false,
    }
}

/// Whether the expression has a value that can be handed over: a scalar, or a complete structure or
/// union.
pub fn is_passable(types: &TypeTable, c: &CoreExpr) -> bool
    requires { IsIn (length types.now.forms) c.now }
    ensures { result ≡ passable (tags types.now) (value (seen (type_at types.now) c.now)) }
{
    let v = value_type(types, c);
    is_scalar(types, v) || (is_record(types, v) && is_sized(types, v))
}

/// Whether the value's type has a size.
pub fn is_sized(types: &TypeTable, v: ValueType) -> bool
    requires { IsValueIn (length types.now.forms) v }
    ensures { result ≡ has_size (tags types.now) (valued types.now v) }
{
    match v {
        ValueType::Own(id) => kinds::has_size(types, plain(id)),
        ValueType::PointerTo(_) => true,
    }
}
