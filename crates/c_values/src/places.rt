//! Which expressions stand for places (C89 3.2.2.1).
ghost use Rattle.std.specs.Prelude.{◌≡◌};
ghost use Rattle.c_meaning.specs.CoreTrees.{cores_of, seen, all_seen};
ghost use Rattle.c_meaning.specs.Values.{is_place_kind, is_place as place, is_lvalue as lvalue, is_register as register, first_is_lvalue, first_is_register, width_of as width_in, is_bit_field as bit_field};
ghost use Rattle.c_types.specs.Table.{Table, type_at};

use c_meaning::{CoreExpr, CoreKind};

/// Whether it stands for a place: an object, what a pointer points to, or a member of one.
pub fn is_place(c: &CoreExpr) -> bool
    ensures { (t : Table) → result ≡ place (seen (type_at t) c.now) }
{
    matches!(
        c.what,
        CoreKind::Local { .. }
            | CoreKind::Object(_)
            | CoreKind::Text(_)
            | CoreKind::Literal(_)
            | CoreKind::Symbol(_)
            | CoreKind::Pointed
            | CoreKind::Member { .. }
    )
}

/// Whether it is an lvalue: a place, but no member of what isn't one.
pub fn is_lvalue(c: &CoreExpr) -> bool
    ensures { (t : Table) → result ≡ lvalue (seen (type_at t) c.now) }
{
    match c.what {
        CoreKind::Member { .. } => match c.kids.as_slice() {
            [a, ..] => is_lvalue(a),
            [] => false,
        },
        _ => is_place(c),
    }
}

/// Whether it is declared register, or a member of what is.
pub fn is_register(c: &CoreExpr) -> bool
    ensures { (t : Table) → result ≡ register (seen (type_at t) c.now) }
{
    match c.what {
        CoreKind::Local { register, .. } => register,
        CoreKind::Member { .. } => match c.kids.as_slice() {
            [a, ..] => is_register(a),
            [] => false,
        },
        _ => false,
    }
}

/// How many bits it has as a bit-field. 0 of anything else.
pub fn width(c: &CoreExpr) -> u8
    ensures { (t : Table) → result ≡ width_in (seen (type_at t) c.now) }
{
    match c.what {
        CoreKind::Member { width, .. } => width,
        _ => 0,
    }
}

/// Whether it is a bit-field.
pub fn is_bit_field(c: &CoreExpr) -> bool
    ensures { (t : Table) → result ≡ bit_field (seen (type_at t) c.now) }
{
    width(c) > 0
}
