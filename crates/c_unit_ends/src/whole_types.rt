//! Values with the types that their objects have in the whole unit (C89 3.1.2.6).
ghost use Rattle.std.specs.Prelude.{◌≡◌, map, IfOk};
ghost use Rattle.c_standings.specs.StandingLists.{of_symbol};
ghost use Rattle.c_unit_ends.specs.Over.{AreObjectPlaces, first_type as type_of_first, over_places, place_of, whole_place};

use crate::copied_kinds::copied;
use c_check_decl::DefinedObject;
use c_meaning::{CoreExpr, CoreKind};
use c_standings::{Standing, Standings};
use c_symbols::SymbolId;
use c_types::TypeId;
use lcc_base::{Items, Memory};
use std::alloc::Global;

/// The type of the first object that the symbol names, or this one.
fn first_type(objects: &[DefinedObject], places: &Standings, id: SymbolId, of: TypeId) -> TypeId
    requires { AreObjectPlaces places.now objects.now }
    ensures { result ≡ type_of_first objects.now id of }
{
    match object_place(places, id) {
        Some(place) => match objects.get(place as usize) {
            Some(object) => object.object.of,
            None => of,
        },
        None => of,
    }
}

/// The place of the first object that the symbol names.
fn object_place(places: &Standings, id: SymbolId) -> Option<u32>
    ensures { result ≡ place_of (of_symbol places.now id) }
{
    match places.of(id) {
        Some(Standing::Object(place)) => Some(place),
        _ => None,
    }
}

/// The type of an expression of this kind, which has this one where it stands.
fn whole_type(objects: &[DefinedObject], places: &Standings, what: &CoreKind, of: TypeId) -> TypeId
    requires { AreObjectPlaces places.now objects.now }
    ensures { result ≡ whole_place objects.now what.now of }
{
    match what {
        CoreKind::Symbol(id) => first_type(objects, places, *id, of),
        _ => of,
    }
}

/// The value again, with the types that its objects have in the whole unit.
#[cycle(over)]
pub(crate) fn over(
    alloc: Global,
    objects: &[DefinedObject],
    places: &Standings,
    c: &CoreExpr,
) -> Result<CoreExpr, Memory>
    requires { AreObjectPlaces places.now objects.now }
    ensures { IfOk result (λ v. v ≡ over_places objects.now c.now) }
{
    Ok(CoreExpr {
        what: copied(alloc, &c.what)?,
        of: whole_type(objects, places, &c.what, c.of),
        line: c.line,
        kids: all_over(alloc, objects, places, c.kids.as_slice())?,
    })
}

/// Several ones, in order.
#[cycle(over)]
fn all_over(
    alloc: Global,
    objects: &[DefinedObject],
    places: &Standings,
    list: &[CoreExpr],
) -> Result<Items<CoreExpr>, Memory>
    requires { AreObjectPlaces places.now objects.now }
    ensures { IfOk result (λ vs. vs ≡ map (over_places objects.now) list.now) }
{
    let mut all = Items::new(alloc);
    for c in list {
        let value = over(alloc, objects, places, c)?;
        all.push(value)?;
    }
    Ok(all)
}
