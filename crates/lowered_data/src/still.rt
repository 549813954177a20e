//! Whether initialisers neither call nor change anything.
ghost use Rattle.std.specs.Prelude.{◌≡◌};
ghost use Rattle.c_meaning.specs.CoreTrees.{cores_of};
ghost use Rattle.lowered_data.specs.Still.{are_still, are_still_objects, are_still_places, is_still, is_still_kind};

use c_meaning::{CoreExpr, CoreKind, CoreObject, FilledPlace};

/// Whether no initialiser of these objects calls or changes anything, or names a local of a function. None of a checked
/// unit does.
pub fn objects_are_still(objects: &[CoreObject]) -> bool
    ensures { result ≡ are_still_objects objects.now }
{
    for object in objects {
        if !places_are_still(object.places.as_slice()) {
            return false;
        }
    }
    true
}

/// The same of the values of places.
fn places_are_still(places: &[FilledPlace]) -> bool
    ensures { result ≡ are_still_places places.now }
{
    for place in places {
        if !is_still(&place.value) {
            return false;
        }
    }
    true
}

/// The same of an expression.
#[cycle(still)]
fn is_still(e: &CoreExpr) -> bool
    ensures { result ≡ is_still e.now }
{
    is_still_kind(&e.what) && are_still(e.kids.as_slice())
}

/// The same of each.
#[cycle(still)]
fn are_still(list: &[CoreExpr]) -> bool
    ensures { result ≡ are_still (cores_of list.now) }
{
    for e in list {
        if !is_still(e) {
            return false;
        }
    }
    true
}

/// The same of a kind of expressions, its parts apart.
fn is_still_kind(what: &CoreKind) -> bool
    ensures { result ≡ is_still_kind what.now }
{
    match what {
        CoreKind::Object(_)
        | CoreKind::Text(_)
        | CoreKind::Function(_)
        | CoreKind::BuiltIn(_)
        | CoreKind::Number(_)
        | CoreKind::Pointed
        | CoreKind::Member { .. }
        | CoreKind::Address
        | CoreKind::First
        | CoreKind::Convert(_)
        | CoreKind::Unary(_)
        | CoreKind::Not
        | CoreKind::Binary { .. }
        | CoreKind::Compare { .. }
        | CoreKind::Move { .. }
        | CoreKind::Difference { .. }
        | CoreKind::And
        | CoreKind::Or
        | CoreKind::Conditional => true,
        _ => false,
    }
}
