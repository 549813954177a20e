//! Address constants (C89 3.4).
ghost use Rattle.std.specs.Prelude.{◌≡◌, ◌<◌, length, Some, ◌&&◌, ◌||◌};
ghost use Rattle.c_types.specs.Table.{tags, type_at};
ghost use Rattle.c_meaning.specs.AddressConstants.{bytes_of as bytes_in, distance as distance_of, first_constant as constant_of_first, first_is_pointer as is_pointer_first, first_place as place_of_first, first_pointer as pointer_of_first, is_static_value as static_value, moved_by as moved_in, or_nothing, place_address as place_in, pointer_address as pointer_in, second_constant as constant_of_second, second_pointer as pointer_of_second, start_of};
ghost use Rattle.c_meaning.specs.CoreTrees.{AreIn, IsIn, all_seen, cores_of, seen, type_of};
ghost use Rattle.c_meaning.specs.Types.{is_array, is_function as function, is_scalar as scalar};
ghost use Rattle.c_meaning.specs.Values.{is_lvalue as lvalue, is_place as place, value};
ghost use Rattle.c_initialisers.specs.Addresses.{meant_if};

use c_meaning::{Conversion, CoreExpr, CoreKind};
use c_types::{TypeId, TypeTable};
use c_values::places::{is_lvalue, is_place};
use c_values::{constant_value, kinds};

/// How many bytes an object has whose size isn't known yet: as many as any may have.
const MOST_BYTES: u32 = 16_777_216;

/// A place in an object: its offset from the first byte, at most the size, in bytes.
#[derive(Clone, Copy, Debug)]
struct Address {
    size: u64,
    offset: u64,
}

/// The first byte of something of a size.
fn start(size: u64) -> Option<Address>
    ensures { meant_if result ≡ start_of size }
{
    Some(Address { size, offset: 0 })
}

/// The size in bytes of what a symbol of the type stands for: none of a function, the most where it isn't
/// known.
fn bytes(types: &TypeTable, of: TypeId) -> u32
    requires { of < length types.now.forms }
    ensures { result ≡ bytes_in (tags types.now) (type_at types.now of) }
{
    if kinds::is_function(types, of) {
        0
    } else {
        match types.size(of) {
            Some(size) => size,
            None => MOST_BYTES,
        }
    }
}

/// The address moved, if it stays in its object or comes right behind it.
fn moved(a: Address, by: i128) -> Option<Address>
    ensures { meant_if result ≡ moved_in (meant_if (Some a)) (Some by) }
{
    let before = i128::from(a.offset);
    if by >= -before && by <= i128::from(a.size) - before {
        Some(Address {
            size: a.size,
            offset: (before + by) as u64,
        })
    } else {
        None
    }
}

/// The address moved, where both are known.
fn moved_by(a: Option<Address>, by: Option<i128>) -> Option<Address>
    ensures { meant_if result ≡ moved_in (meant_if a) by }
{
    moved(a?, by?)
}

/// So many elements of a size, forwards or backwards, in bytes.
fn distance(size: u32, back: bool, count: Option<i64>) -> Option<i128>
    ensures { result ≡ distance_of size back count }
{
    let bytes = i128::from(size) * i128::from(count?);
    if back { Some(-bytes) } else { Some(bytes) }
}

/// The address, or where there is none the nothing to which an integer points that was converted.
fn or_start(a: Option<Address>, n: Option<i64>) -> Option<Address>
    ensures { meant_if result ≡ or_nothing (meant_if a) n }
{
    match (a, n) {
        (Some(a), _) => Some(a),
        (None, Some(_)) => start(0),
        (None, None) => None,
    }
}

/// Whether the first expression is a pointer.
fn is_first_pointer(types: &TypeTable, kids: &[CoreExpr]) -> bool
    requires { AreIn (length types.now.forms) (cores_of kids.now) }
    ensures { result ≡ is_pointer_first (all_seen (type_at types.now) (cores_of kids.now)) }
{
    match kids {
        [a, ..] => kinds::target(types, a.of).is_some(),
        [] => false,
    }
}

/// The value of the first expression, if it is an integer constant.
fn first_constant(types: &TypeTable, kids: &[CoreExpr]) -> Option<i64>
    requires { AreIn (length types.now.forms) (cores_of kids.now) }
    ensures { result ≡ constant_of_first (all_seen (type_at types.now) (cores_of kids.now)) }
{
    match kids {
        [a, ..] => constant_value(types, a),
        [] => None,
    }
}

/// The value of the second expression, if it is an integer constant.
fn second_constant(types: &TypeTable, kids: &[CoreExpr]) -> Option<i64>
    requires { AreIn (length types.now.forms) (cores_of kids.now) }
    ensures { result ≡ constant_of_second (all_seen (type_at types.now) (cores_of kids.now)) }
{
    match kids {
        [_, b, ..] => constant_value(types, b),
        [] | [_] => None,
    }
}

/// Where the first expression begins, if it is a place at an address constant.
#[cycle(address)]
fn first_place(types: &TypeTable, kids: &[CoreExpr]) -> Option<Address>
    requires { AreIn (length types.now.forms) (cores_of kids.now) }
    ensures { meant_if result ≡ place_of_first (tags types.now) (all_seen (type_at types.now) (cores_of kids.now)) }
{
    match kids {
        [a, ..] => place_address(types, a),
        [] => None,
    }
}

/// What the first expression is as a pointer, if that is an address constant.
#[cycle(address)]
fn first_pointer(types: &TypeTable, kids: &[CoreExpr]) -> Option<Address>
    requires { AreIn (length types.now.forms) (cores_of kids.now) }
    ensures { meant_if result ≡ pointer_of_first (tags types.now) (all_seen (type_at types.now) (cores_of kids.now)) }
{
    match kids {
        [a, ..] => pointer_address(types, a),
        [] => None,
    }
}

/// What the second expression is as a pointer, if that is an address constant.
#[cycle(address)]
fn second_pointer(types: &TypeTable, kids: &[CoreExpr]) -> Option<Address>
    requires { AreIn (length types.now.forms) (cores_of kids.now) }
    ensures { meant_if result ≡ pointer_of_second (tags types.now) (all_seen (type_at types.now) (cores_of kids.now)) }
{
    match kids {
        [_, b, ..] => pointer_address(types, b),
        [] | [_] => None,
    }
}

/// Where a place begins, if that is an address constant. A local object is at none.
#[cycle(address)]
fn place_address(types: &TypeTable, c: &CoreExpr) -> Option<Address>
    requires { IsIn (length types.now.forms) c.now }
    ensures { meant_if result ≡ place_in (tags types.now) (seen (type_at types.now) c.now) }
{
    let kids = c.kids.as_slice();
    match &c.what {
        CoreKind::Symbol(_) => start(u64::from(bytes(types, c.of))),
        CoreKind::Literal(text) => start((text.as_slice().len() + 1) as u64),
        CoreKind::Pointed => first_pointer(types, kids),
        CoreKind::Member { offset, .. } => {
            moved_by(first_place(types, kids), Some(i128::from(*offset)))
        }
        _ => None,
    }
}

/// What a pointer is, if that is an address constant.
#[cycle(address)]
fn pointer_address(types: &TypeTable, c: &CoreExpr) -> Option<Address>
    requires { IsIn (length types.now.forms) c.now }
    ensures { meant_if result ≡ pointer_in (tags types.now) (seen (type_at types.now) c.now) }
{
    let kids = c.kids.as_slice();
    match c.what {
        CoreKind::Address | CoreKind::First => first_place(types, kids),
        CoreKind::Convert(Conversion::Pointer) => {
            or_start(first_pointer(types, kids), first_constant(types, kids))
        }
        CoreKind::Move { size, back } => {
            if is_first_pointer(types, kids) {
                let by = distance(size, back, second_constant(types, kids));
                moved_by(first_pointer(types, kids), by)
            } else {
                let by = distance(size, back, first_constant(types, kids));
                moved_by(second_pointer(types, kids), by)
            }
        }
        _ => None,
    }
}

/// Whether the value is an integer constant or an address constant.
pub fn is_constant(types: &TypeTable, v: &CoreExpr) -> bool
    requires { IsIn (length types.now.forms) v.now }
    ensures { result ≡ static_value (tags types.now) (seen (type_at types.now) v.now) }
{
    constant_value(types, v).is_some() || pointer_address(types, v).is_some()
}

/// Whether the expression's value is its address: it is a function, or an array in a place.
fn is_value_address(types: &TypeTable, c: &CoreExpr) -> bool
    requires { IsIn (length types.now.forms) c.now }
    ensures { result ≡ ((is_array (type_at types.now (type_of c.now)) && lvalue (seen (type_at types.now) c.now)) || function (type_at types.now (type_of c.now))) }
{
    (kinds::element(types, c.of).is_some() && is_lvalue(c)) || kinds::is_function(types, c.of)
}

/// Whether the expression's value is read of a place: that of a scalar.
fn is_value_read(types: &TypeTable, c: &CoreExpr) -> bool
    requires { IsIn (length types.now.forms) c.now }
    ensures { result ≡ (place (seen (type_at types.now) c.now) && scalar (type_at types.now (type_of c.now))) }
{
    is_place(c) && kinds::is_scalar(types, c.of)
}

/// Whether a static object may begin with the expression's value: it is an integer constant or an address
/// constant.
pub(crate) fn is_static_value(types: &TypeTable, c: &CoreExpr) -> bool
    requires { IsIn (length types.now.forms) c.now }
    ensures { result ≡ static_value (tags types.now) (value (seen (type_at types.now) c.now)) }
{
    if is_value_address(types, c) {
        place_address(types, c).is_some()
    } else if is_value_read(types, c) {
        false
    } else {
        is_constant(types, c)
    }
}
