//! Null pointer constants (C89 3.2.2.3).
ghost use Rattle.std.specs.Prelude.{◌≡◌, ◌<◌, length};
ghost use Rattle.c_types.specs.Table.{type_at};
ghost use Rattle.c_meaning.specs.CoreTrees.{IsIn, cores_of, seen};
ghost use Rattle.c_meaning.specs.Constants.{is_cast_zero as cast_zero, is_null as null, is_plain_void_pointer as plain_void_pointer, is_zero as zero};
ghost use Rattle.c_meaning.specs.Values.{value};

use crate::basic_places::VOID;
use crate::constants::constant_value;
use crate::kinds;
use crate::places::is_place;
use c_meaning::{CoreExpr, CoreKind};
use c_types::{TypeId, TypeTable};

/// Whether it is an integer constant expression of value 0.
fn is_zero(types: &TypeTable, e: &CoreExpr) -> bool
    requires { IsIn (length types.now.forms) e.now }
    ensures { result ≡ zero (seen (type_at types.now) e.now) }
{
    matches!(constant_value(types, e), Some(0))
}

/// Whether the type is `void *`, both without qualifiers.
fn is_plain_void_pointer(types: &TypeTable, id: TypeId) -> bool
    requires { id < length types.now.forms }
    ensures { result ≡ plain_void_pointer (type_at types.now id) }
{
    let (base, qualifiers) = types.unqualified(id);
    if qualifiers.number() != 0 {
        return false;
    }
    match types.pointer_to(base) {
        Some(to) => kinds::is_same_simple(types, to, types.basic_type(VOID)),
        None => false,
    }
}

/// Whether it is a constant of value 0 that is converted to `void *`.
fn is_cast_zero(types: &TypeTable, c: &CoreExpr) -> bool
    requires { IsIn (length types.now.forms) c.now }
    ensures { result ≡ cast_zero (seen (type_at types.now) c.now) }
{
    match (&c.what, c.kids.as_slice()) {
        (CoreKind::Convert(_), [a, ..]) => is_plain_void_pointer(types, c.of) && is_zero(types, a),
        _ => false,
    }
}

/// Whether the expression, as it stands, is a null pointer constant.
pub fn is_null(types: &TypeTable, c: &CoreExpr) -> bool
    requires { IsIn (length types.now.forms) c.now }
    ensures { result ≡ null (seen (type_at types.now) c.now) }
{
    is_zero(types, c) || is_cast_zero(types, c)
}

/// Whether the expression's value is a null pointer constant: an integer constant expression of value 0,
/// or one that is converted to `void *`. The value of a place or of a function is none.
pub fn is_null_value(types: &TypeTable, c: &CoreExpr) -> bool
    requires { IsIn (length types.now.forms) c.now }
    ensures { result ≡ null (value (seen (type_at types.now) c.now)) }
{
    if is_place(c) {
        return false;
    }
    if kinds::is_function(types, c.of) {
        return false;
    }
    is_null(types, c)
}
