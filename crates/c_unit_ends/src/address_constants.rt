//! Address constants over the whole unit (C89 3.4).
ghost use Rattle.std.specs.Prelude.{◌≡◌, ◌<◌, None, length, map, IfErr, IfOk, OnOk};
ghost use Rattle.c_types.specs.Table.{tags};
ghost use Rattle.c_meaning.specs.CoreTrees.{IsIn};
ghost use Rattle.c_meaning.specs.State.{State};
ghost use Rattle.c_check_decl.specs.Declares.{AreObjectsIn, defined_in};
ghost use Rattle.c_check_expr.specs.StepFaults.{IsFault};
ghost use Rattle.c_initialisers.specs.FilledPlaces.{ArePlacesIn, filled_place_in};
ghost use Rattle.c_units.specs.Ends.{constants_fault, is_past as lies_past, past_fault};
ghost use Rattle.c_unit_ends.specs.Over.{AreObjectPlaces, with_tags};
ghost use Rattle.c_unit_parts.specs.PartsIn.{ArePartsIn, parts_in};

use crate::standing::object_places;
use crate::whole_types::over;
use c_check_decl::DefinedObject;
use c_initialisers::pieces::is_constant;
use c_meaning::FilledPlace;
use c_standings::Standings;
use c_types::TypeTable;
use c_unit_parts::UnitParts;
use c_values::{CheckFault, kinds};
use lcc_base::Memory;
use std::alloc::Global;

/// Nothing, unless an address constant lies past the end of its object, whose type may be told only behind it
/// (constraint 24).
pub fn constants(alloc: Global, types: &TypeTable, parts: &UnitParts) -> Result<(), CheckFault>
    requires parts { ArePartsIn (length types.now.forms) parts.now }
    ensures sound { (s : State) → s.tags ≡ tags types.now → OnOk result (constants_fault s (parts_in types.now parts.now).objects (parts_in types.now parts.now).objects ≡ None) }
    ensures told { (s : State) → s.tags ≡ tags types.now → IfErr result (λ e. IsFault e (constants_fault s (parts_in types.now parts.now).objects (parts_in types.now parts.now).objects)) }
{
    let objects = parts.objects.as_slice();
    let places = object_places(alloc, objects)?;
    objects_are_constant(alloc, types, objects, &places)
}

/// Nothing, unless a value of the objects lies past the end of its object.
fn objects_are_constant(
    alloc: Global,
    types: &TypeTable,
    objects: &[DefinedObject],
    places: &Standings,
) -> Result<(), CheckFault>
    requires objects { AreObjectsIn (length types.now.forms) objects.now }
    requires places { AreObjectPlaces places.now objects.now }
    ensures sound { OnOk result (constants_fault (with_tags (tags types.now)) (map (defined_in types.now) objects.now) (map (defined_in types.now) objects.now) ≡ None) }
    ensures told { IfErr result (λ e. IsFault e (constants_fault (with_tags (tags types.now)) (map (defined_in types.now) objects.now) (map (defined_in types.now) objects.now))) }
{
    for object in objects {
        let list = object.object.places.as_slice();
        are_constant(alloc, types, objects, places, list)?;
    }
    Ok(())
}

/// Nothing, unless a value of these places lies past the end of its object.
fn are_constant(
    alloc: Global,
    types: &TypeTable,
    objects: &[DefinedObject],
    places: &Standings,
    list: &[FilledPlace],
) -> Result<(), CheckFault>
    requires objects { AreObjectsIn (length types.now.forms) objects.now }
    requires places { AreObjectPlaces places.now objects.now }
    requires list { ArePlacesIn (length types.now.forms) list.now }
    ensures sound { OnOk result (past_fault (with_tags (tags types.now)) (map (defined_in types.now) objects.now) (map (filled_place_in types.now) list.now) ≡ None) }
    ensures told { IfErr result (λ e. IsFault e (past_fault (with_tags (tags types.now)) (map (defined_in types.now) objects.now) (map (filled_place_in types.now) list.now))) }
{
    for place in list {
        if is_past(alloc, types, objects, places, place)? {
            return Err(CheckFault::Constraint {
                number: 24,
                line: place.value.line,
            });
        }
    }
    Ok(())
}

/// Whether the value of a place, unless a string fills it, lies past the end of its object.
fn is_past(
    alloc: Global,
    types: &TypeTable,
    objects: &[DefinedObject],
    places: &Standings,
    place: &FilledPlace,
) -> Result<bool, Memory>
    requires objects { AreObjectsIn (length types.now.forms) objects.now }
    requires places { AreObjectPlaces places.now objects.now }
    requires of { place.now.at.of < length types.now.forms }
    requires value { IsIn (length types.now.forms) place.now.value }
    ensures { IfOk result (λ b. b ≡ lies_past (with_tags (tags types.now)) (map (defined_in types.now) objects.now) (filled_place_in types.now place.now)) }
{
    match kinds::element(types, place.at.of) {
        Some(_) => Ok(false),
        None => {
            let value = over(alloc, objects, places, &place.value)?;
            Ok(!is_constant(types, &value))
        }
    }
}
