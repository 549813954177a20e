//! What the types of a program say of its values. A type that the table doesn't have is void.
ghost use Rattle.std.specs.Prelude.{◌≡◌, ◌<◌, length, false, IfSome, IfNone};
ghost use Rattle.c_types.specs.CType.{Array, CType};
ghost use Rattle.c_types.specs.Constness.{is_const as is_const_type};
ghost use Rattle.c_types.specs.Table.{tags, type_at};
ghost use Rattle.c_meaning.specs.Scalars.{scalar_of};
ghost use Rattle.c_meaning.specs.Types.{is_array, is_pointer as is_pointer_type, is_record as is_record_type};
ghost use Rattle.c_runs.specs.Places.{align_of, size_of};

use c_types::{TypeId, TypeTable};
use c_values::kinds;
use objects::Scalar;

/// The type's place, or that of void where the table has no such type.
#[inline(always)]
pub fn known_type(types: &TypeTable, id: TypeId) -> TypeId
    ensures means { type_at types.now result ≡ type_at types.now id }
    ensures within { result < length types.now.forms }
{
    if id < types.len() {
        id
    } else {
        types.basic_type(0)
    }
}

/// The width and sign of the type; those of a pointer where it is none of a number.
#[inline(always)]
pub fn scalar(types: &TypeTable, id: TypeId) -> Scalar
    ensures { result ≡ scalar_of (type_at types.now id) }
{
    kinds::scalar(types, known_type(types, id))
}

/// Whether the type is a structure or a union.
pub fn is_record(types: &TypeTable, id: TypeId) -> bool
    ensures { result ≡ is_record_type (type_at types.now id) }
{
    kinds::is_record(types, known_type(types, id))
}

/// Whether the type is a pointer.
pub fn is_pointer(types: &TypeTable, id: TypeId) -> bool
    ensures { result ≡ is_pointer_type (type_at types.now id) }
{
    kinds::target(types, known_type(types, id)).is_some()
}

/// Whether an object of the type is const.
pub fn is_const(types: &TypeTable, id: TypeId) -> bool
    ensures { result ≡ is_const_type (type_at types.now id) }
{
    types.is_const(known_type(types, id))
}

/// The size of an object of the type in bytes, 0 where it has none.
pub fn size(types: &TypeTable, id: TypeId) -> u32
    ensures { result ≡ size_of (tags types.now) (type_at types.now id) }
{
    types.size(known_type(types, id)).unwrap_or(0)
}

/// The alignment of an object of the type in bytes.
pub fn alignment(types: &TypeTable, id: TypeId) -> u32
    ensures is { result ≡ align_of (tags types.now) (type_at types.now id) }
    ensures some { 0 < result }
{
    types.extent(known_type(types, id)).align
}

/// How many elements the type says that it has, if it is an array.
pub fn array_length(types: &TypeTable, id: TypeId) -> Option<Option<u32>>
    ensures some { IfSome result (λ count. (of : CType) × (type_at types.now id ≡ Array of count)) }
    ensures none { IfNone result (is_array (type_at types.now id) ≡ false) }
{
    let (base, _) = types.unqualified(known_type(types, id));
    match types.array_of(base) {
        Some((_, count)) => Some(count),
        None => None,
    }
}
