//! Which kind of type stands at a place of the table (C89 3.1.2.5).
ghost use Rattle.std.specs.Prelude.{◌≡◌, ◌<◌, ℕ, List, Option, length, true, false, IfSome, IfNone};
ghost use Rattle.c_types.specs.CType.{Array, CType as CTypeTree, unqualified};
ghost use Rattle.c_types.specs.Conversions.{is_integer as integer};
ghost use Rattle.c_types.specs.Table.{formed, is_qualified, tags, type_at};
ghost use Rattle.c_meaning.specs.Rows.{size_of as size_in};
ghost use Rattle.c_meaning.specs.Scalars.{scalar_of, conversion_to};
ghost use Rattle.c_meaning.specs.Types.{alike as are_alike, has_size as sized, is_array, is_function as function, is_pointer, is_record as records, is_scalar as scalars, is_void as void, qualifiers_of, target as pointed};
ghost use Rattle.c_meaning.specs.Values.{same_simple as same};
ghost use Rattle.c_values.specs.Valued.{plain_place, qualified_in};

use crate::value_type::QualifiedType;
use c_meaning::Conversion;
use c_types::{Qualifiers, TypeForm, TypeId, TypeTable};
use objects::{Scalar, Width};

/// Whether the type is void.
pub fn is_void(types: &TypeTable, id: TypeId) -> bool
    requires { id < length types.now.forms }
    ensures { result ≡ void (type_at types.now id) }
{
    let (base, _) = types.unqualified(id);
    matches!(types.form(base), TypeForm::Void)
}

/// Whether the type is an integer type or an enumeration.
pub fn is_integer(types: &TypeTable, id: TypeId) -> bool
    requires { id < length types.now.forms }
    ensures { result ≡ integer (type_at types.now id) }
{
    let (base, _) = types.unqualified(id);
    match types.form(base) {
        TypeForm::Char
        | TypeForm::SignedChar
        | TypeForm::UnsignedChar
        | TypeForm::Short
        | TypeForm::UnsignedShort
        | TypeForm::Int
        | TypeForm::Unsigned
        | TypeForm::Long
        | TypeForm::UnsignedLong
        | TypeForm::Enumeration { .. } => true,
        _ => false,
    }
}

/// Whether the type is an integer type or a pointer.
pub fn is_scalar(types: &TypeTable, id: TypeId) -> bool
    requires { id < length types.now.forms }
    ensures { result ≡ scalars (type_at types.now id) }
{
    is_integer(types, id) || target(types, id).is_some()
}

/// Whether the type is a structure or a union.
pub fn is_record(types: &TypeTable, id: TypeId) -> bool
    requires { id < length types.now.forms }
    ensures { result ≡ records (type_at types.now id) }
{
    let (base, _) = types.unqualified(id);
    matches!(types.form(base), TypeForm::Structure | TypeForm::Union)
}

/// Whether the type is a function.
pub fn is_function(types: &TypeTable, id: TypeId) -> bool
    requires { id < length types.now.forms }
    ensures { result ≡ function (type_at types.now id) }
{
    let (base, _) = types.unqualified(id);
    matches!(types.form(base), TypeForm::Function { .. })
}

/// What the type points to, if it is a pointer.
pub fn target(types: &TypeTable, id: TypeId) -> Option<TypeId>
    requires { id < length types.now.forms }
    ensures pointer { IfSome result (λ to. is_pointer (type_at types.now id) ≡ true) }
    ensures to { IfSome result (λ to. pointed (type_at types.now id) ≡ type_at types.now to) }
    ensures within { IfSome result (λ to. to < length types.now.forms) }
    ensures none { IfNone result (is_pointer (type_at types.now id) ≡ false) }
{
    let (base, _) = types.unqualified(id);
    types.pointer_to(base)
}

/// The elements of the type, if it is an array.
pub fn element(types: &TypeTable, id: TypeId) -> Option<QualifiedType>
    requires { id < length types.now.forms }
    ensures array { IfSome result (λ e. (n : Option ℕ) × (type_at types.now id ≡ Array (qualified_in types.now e) n)) }
    ensures within { IfSome result (λ e. e.of < length types.now.forms) }
    ensures none { IfNone result (is_array (type_at types.now id) ≡ false) }
{
    let (base, qualifiers) = types.unqualified(id);
    match types.array_of(base) {
        Some((of, _)) => Some(QualifiedType { of, qualifiers }),
        None => None,
    }
}

/// Its qualifiers. An array has none of its own.
pub fn qualifiers(types: &TypeTable, id: TypeId) -> Qualifiers
    requires { id < length types.now.forms }
    ensures { result.0 ≡ qualifiers_of (type_at types.now id) }
{
    let (base, all) = types.unqualified(id);
    match types.form(base) {
        TypeForm::Array { .. } => Qualifiers::none(),
        _ => all,
    }
}

/// The place of the type without its qualifiers. Those of an array's elements stay.
pub fn unqualified_type(types: &TypeTable, id: TypeId) -> TypeId
    requires { id < length types.now.forms }
    ensures means { type_at types.now result ≡ unqualified (type_at types.now id) }
    ensures within { result < length types.now.forms }
{
    let (base, _) = types.unqualified(id);
    match types.form(base) {
        TypeForm::Array { .. } => id,
        _ => base,
    }
}

/// The place of the basic type, if it is one without qualifiers.
fn basic_place(types: &TypeTable, id: TypeId) -> Option<u8>
    requires { id < length types.now.forms }
    ensures { result ≡ plain_place (type_at types.now id) }
{
    let (base, qualifiers) = types.unqualified(id);
    if qualifiers.number() == 0 {
        basic_number(types.form(base))
    } else {
        None
    }
}

/// The place of the basic type of this form, if it is one's.
fn basic_number(form: &TypeForm) -> Option<u8>
    ensures { (known : List CTypeTree) → (n : ℕ) → is_qualified form.now ≡ false → result ≡ plain_place (formed known n form.now) }
{
    match form {
        TypeForm::Void => Some(0),
        TypeForm::Char => Some(1),
        TypeForm::SignedChar => Some(2),
        TypeForm::UnsignedChar => Some(3),
        TypeForm::Short => Some(4),
        TypeForm::UnsignedShort => Some(5),
        TypeForm::Int => Some(6),
        TypeForm::Unsigned => Some(7),
        TypeForm::Long => Some(8),
        TypeForm::UnsignedLong => Some(9),
        _ => None,
    }
}

/// Whether the two are the same basic type, both without qualifiers.
pub fn is_same_simple(types: &TypeTable, a: TypeId, b: TypeId) -> bool
    requires a { a < length types.now.forms }
    requires b { b < length types.now.forms }
    ensures { result ≡ same (type_at types.now a) (type_at types.now b) }
{
    match (basic_place(types, a), basic_place(types, b)) {
        (Some(x), Some(y)) => x == y,
        _ => false,
    }
}

/// The width and sign of the type; those of a pointer where it is none of a number.
pub fn scalar(types: &TypeTable, id: TypeId) -> Scalar
    requires { id < length types.now.forms }
    ensures { result ≡ scalar_of (type_at types.now id) }
{
    let (base, _) = types.unqualified(id);
    let (width, signed) = match types.form(base) {
        TypeForm::Char | TypeForm::SignedChar => (Width::One, true),
        TypeForm::UnsignedChar => (Width::One, false),
        TypeForm::Short => (Width::Two, true),
        TypeForm::UnsignedShort => (Width::Two, false),
        TypeForm::Int | TypeForm::Long | TypeForm::Enumeration { .. } => (Width::Four, true),
        _ => (Width::Four, false),
    };
    Scalar { width, signed }
}

/// What a conversion to the type is.
pub fn conversion(types: &TypeTable, id: TypeId) -> Conversion
    requires { id < length types.now.forms }
    ensures { result ≡ conversion_to (type_at types.now id) }
{
    if is_void(types, id) {
        Conversion::Void
    } else if is_integer(types, id) {
        Conversion::Integer(scalar(types, id))
    } else {
        Conversion::Pointer
    }
}

#[tactic(auto, using(crate::proofs::lemmas::Qualified::extent_qualify))]
/// Whether an object of the type has a size: it is neither a function nor incomplete.
pub fn has_size(types: &TypeTable, of: QualifiedType) -> bool
    requires { of.of < length types.now.forms }
    ensures { result ≡ sized (tags types.now) (qualified_in types.now of) }
{
    types.size(of.of).is_some()
}

/// The size of the type in bytes, 0 where it has none.
pub fn size_of(types: &TypeTable, of: QualifiedType) -> u32
    requires { of.of < length types.now.forms }
    ensures { result ≡ size_in (tags types.now) (qualified_in types.now of) }
{
    types.size(of.of).unwrap_or(0)
}

/// Whether the types are compatible when their own qualifiers are left away.
pub fn are_types_alike(types: &TypeTable, a: QualifiedType, b: QualifiedType) -> bool
    requires a { a.of < length types.now.forms }
    requires b { b.of < length types.now.forms }
    ensures { result ≡ are_alike (qualified_in types.now a) (qualified_in types.now b) }
{
    types.alike((a.of, a.qualifiers), (b.of, b.qualifiers))
}
