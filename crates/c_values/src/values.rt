//! The types of values, before the values are formed (C89 3.2.2.1): constraints ask for them first.
ghost use Rattle.std.specs.Prelude.{◌≡◌, ◌<◌, length, true, false, IfSome, IfNone};
ghost use Rattle.c_types.specs.Conversions.{is_integer as integer};
ghost use Rattle.c_types.specs.Table.{Table, tags, type_at};
ghost use Rattle.c_meaning.specs.CoreTrees.{IsIn, seen, type_of};
ghost use Rattle.c_meaning.specs.Types.{is_array, is_pointer as pointers, is_record as records, is_scalar as scalar, is_void as void, qualifiers_of, is_function as function, target as pointed, has_size as sized};
ghost use Rattle.c_meaning.specs.Values.{value_type as type_of_value};
ghost use Rattle.c_values.specs.Valued.{IsValueIn, qualified_in, valued};

use crate::kinds;
use crate::places::{is_lvalue, is_place};
use crate::value_type::{QualifiedType, ValueType};
use c_meaning::CoreExpr;
use c_types::{Qualifiers, TypeForm, TypeId, TypeTable};

/// The type as it stands in the table.
pub fn plain(of: TypeId) -> QualifiedType
    ensures of { result.of ≡ of }
    ensures qualifiers { result.qualifiers.0 ≡ 0 }
    ensures means { (t : Table) → qualified_in t result ≡ type_at t of }
{
    QualifiedType {
        of,
        qualifiers: Qualifiers::none(),
    }
}

/// The type of the expression's value.
pub fn value_type(types: &TypeTable, c: &CoreExpr) -> ValueType
    requires { IsIn (length types.now.forms) c.now }
    ensures is { valued types.now result ≡ type_of_value (seen (type_at types.now) c.now) }
    ensures within { IsValueIn (length types.now.forms) result }
{
    match kinds::element(types, c.of) {
        Some(element) if is_lvalue(c) => ValueType::PointerTo(element),
        Some(_) => ValueType::Own(c.of),
        None => read_type(types, c),
    }
}

/// The type of what is read of an expression that is no array.
fn read_type(types: &TypeTable, c: &CoreExpr) -> ValueType
    requires within { IsIn (length types.now.forms) c.now }
    requires kind { is_array (type_at types.now (type_of c.now)) ≡ false }
    ensures is { valued types.now result ≡ type_of_value (seen (type_at types.now) c.now) }
    ensures within { IsValueIn (length types.now.forms) result }
{
    if kinds::is_function(types, c.of) {
        ValueType::PointerTo(plain(c.of))
    } else if is_place(c) && kinds::is_scalar(types, c.of) {
        ValueType::Own(kinds::unqualified_type(types, c.of))
    } else {
        ValueType::Own(c.of)
    }
}

/// Whether it is an integer type.
pub fn is_integer(types: &TypeTable, v: ValueType) -> bool
    requires { IsValueIn (length types.now.forms) v }
    ensures { result ≡ integer (valued types.now v) }
{
    match v {
        ValueType::Own(id) => kinds::is_integer(types, id),
        ValueType::PointerTo(_) => false,
    }
}

/// What it points to, if it is a pointer.
pub fn target(types: &TypeTable, v: ValueType) -> Option<QualifiedType>
    requires { IsValueIn (length types.now.forms) v }
    ensures pointer { IfSome result (λ to. pointers (valued types.now v) ≡ true) }
    ensures to { IfSome result (λ to. pointed (valued types.now v) ≡ qualified_in types.now to) }
    ensures within { IfSome result (λ to. to.of < length types.now.forms) }
    ensures none { IfNone result (pointers (valued types.now v) ≡ false) }
{
    match v {
        ValueType::Own(id) => match kinds::target(types, id) {
            Some(to) => Some(plain(to)),
            None => None,
        },
        ValueType::PointerTo(to) => Some(to),
    }
}

/// Whether it is a pointer.
pub fn is_pointer(types: &TypeTable, v: ValueType) -> bool
    requires { IsValueIn (length types.now.forms) v }
    ensures { result ≡ pointers (valued types.now v) }
{
    target(types, v).is_some()
}

/// Whether it is an integer type or a pointer.
pub fn is_scalar(types: &TypeTable, v: ValueType) -> bool
    requires { IsValueIn (length types.now.forms) v }
    ensures { result ≡ scalar (valued types.now v) }
{
    is_integer(types, v) || is_pointer(types, v)
}

/// Whether it is a structure or a union.
pub fn is_record(types: &TypeTable, v: ValueType) -> bool
    requires { IsValueIn (length types.now.forms) v }
    ensures { result ≡ records (valued types.now v) }
{
    match v {
        ValueType::Own(id) => kinds::is_record(types, id),
        ValueType::PointerTo(_) => false,
    }
}

/// Whether it is void.
pub fn is_void(types: &TypeTable, v: ValueType) -> bool
    requires { IsValueIn (length types.now.forms) v }
    ensures { result ≡ void (valued types.now v) }
{
    match v {
        ValueType::Own(id) => kinds::is_void(types, id),
        ValueType::PointerTo(_) => false,
    }
}

/// Whether the type under these qualifiers is void.
pub fn is_void_under(types: &TypeTable, of: QualifiedType) -> bool
    requires { of.of < length types.now.forms }
    ensures { result ≡ void (qualified_in types.now of) }
{
    kinds::is_void(types, of.of)
}

/// Whether the type under these qualifiers is a function.
pub fn is_function_under(types: &TypeTable, of: QualifiedType) -> bool
    requires { of.of < length types.now.forms }
    ensures { result ≡ function (qualified_in types.now of) }
{
    kinds::is_function(types, of.of)
}

/// The qualifiers of the type under these. An array has none of its own.
pub fn qualifiers_under(types: &TypeTable, of: QualifiedType) -> Qualifiers
    requires { of.of < length types.now.forms }
    ensures { result.0 ≡ qualifiers_of (qualified_in types.now of) }
{
    let (base, all) = types.under(of.of, of.qualifiers);
    match types.form(base) {
        TypeForm::Array { .. } => Qualifiers::none(),
        _ => all,
    }
}
