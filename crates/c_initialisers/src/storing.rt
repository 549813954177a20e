//! What an expression stores in its place (C89 3.5.7).
ghost use Rattle.std.specs.Prelude.{◌≡◌, ◌<◌, ◌++◌, ◌∷◌, [], None, true, false, length, map, IfErr, OnOk};
ghost use Rattle.c_types.specs.Table.{Grows, tags, type_at};
ghost use Rattle.c_meaning.specs.CoreTrees.{IsIn, seen};
ghost use Rattle.c_meaning.specs.Filling.{filled_by, is_text_over as text_over, stored};
ghost use Rattle.c_meaning.specs.NodeConstraints.{passed_by};
ghost use Rattle.c_meaning.specs.Values.{passed_to as as_parameter, value_type as type_of_value};
ghost use Rattle.c_values.specs.Valued.{qualified_in};
ghost use Rattle.c_initialisers.specs.Storing.{AreStoredIn, stored_in};
ghost use Rattle.c_check_expr.specs.Completed.{IsPassed};
ghost use Rattle.c_initialisers.specs.Waiting.{IsPlaceIn, place_in};

use crate::kinds::is_text_over;
use crate::place::Place;
use crate::sizes::text_array;
use crate::stored::Stored;
use crate::texts::bytes;
use c_meaning::CoreExpr;
use c_types::TypeTable;
use c_values::forming::{into_value, pointer_type};
use c_values::passing::passed_to;
use c_values::values::value_type;
use c_values::{CheckFault, ValueType};
use lcc_base::Memory;
use std::alloc::Global;

/// Stores an expression, which breaks no constraint there, in the place that it fills: a string over an
/// array of characters by the literal itself, and any other by its value. The line is that of the
/// initialiser; a limit is told where the value's type passes it.
pub(crate) fn store(
    alloc: Global,
    types: &mut TypeTable,
    line: u32,
    at: Place,
    c: CoreExpr,
    places: &mut Vec<Stored>,
) -> Result<(), CheckFault>
    requires at { IsPlaceIn (length types.old.forms) at }
    requires within { IsIn (length types.old.forms) c }
    requires places { AreStoredIn (length types.old.forms) places.old.items }
    ensures stored { OnOk result (map (stored_in types.new) places.new.items ≡ map (stored_in types.old) places.old.items ++ filled_by (place_in types.old at) (seen (type_at types.old) c) ∷ []) }
    ensures passes { OnOk result (passed_by (tags types.old) (type_of_value (seen (type_at types.old) c) ∷ []) ≡ None) }
    ensures limit { IfErr result (λ e. IsPassed e line (passed_by (tags types.old) (type_of_value (seen (type_at types.old) c) ∷ []))) }
    ensures within { OnOk result (AreStoredIn (length types.new.forms) places.new.items) }
    ensures grows { Grows types.old types.new }
{
    if is_text_over(types, at.of, &c) {
        form_value_type(types, line, &c)?;
        store_text(types, at, c, places)?;
        Ok(())
    } else {
        store_value(alloc, types, line, at, c, places)
    }
}

/// Forms the type of the expression's value, where it is a pointer that the table perhaps lacks.
fn form_value_type(types: &mut TypeTable, line: u32, c: &CoreExpr) -> Result<(), CheckFault>
    requires { IsIn (length types.old.forms) c.now }
    ensures passes { OnOk result (passed_by (tags types.old) (type_of_value (seen (type_at types.old) c.now) ∷ []) ≡ None) }
    ensures limit { IfErr result (λ e. IsPassed e line (passed_by (tags types.old) (type_of_value (seen (type_at types.old) c.now) ∷ []))) }
    ensures grows { Grows types.old types.new }
{
    types.types_are_within_limits();
    match value_type(types, c) {
        ValueType::Own(_) => Ok(()),
        ValueType::PointerTo(to) => {
            let _ = pointer_type(types, line, to)?;
            Ok(())
        }
    }
}

/// Stores the value of an expression that is no string over an array of characters.
fn store_value(
    alloc: Global,
    types: &mut TypeTable,
    line: u32,
    at: Place,
    c: CoreExpr,
    places: &mut Vec<Stored>,
) -> Result<(), CheckFault>
    requires at { IsPlaceIn (length types.old.forms) at }
    requires within { IsIn (length types.old.forms) c }
    requires other { text_over (qualified_in types.old at.of) (seen (type_at types.old) c) ≡ false }
    requires places { AreStoredIn (length types.old.forms) places.old.items }
    ensures stored { OnOk result (map (stored_in types.new) places.new.items ≡ map (stored_in types.old) places.old.items ++ filled_by (place_in types.old at) (seen (type_at types.old) c) ∷ []) }
    ensures passes { OnOk result (passed_by (tags types.old) (type_of_value (seen (type_at types.old) c) ∷ []) ≡ None) }
    ensures limit { IfErr result (λ e. IsPassed e line (passed_by (tags types.old) (type_of_value (seen (type_at types.old) c) ∷ []))) }
    ensures within { OnOk result (AreStoredIn (length types.new.forms) places.new.items) }
    ensures grows { Grows types.old types.new }
{
    types.types_are_within_limits();
    let value = into_value(alloc, types, line, c)?;
    push_value(alloc, types, at, value, places)?;
    Ok(())
}

/// Stores a value that is formed, as one that is passed to a parameter of the place's type.
fn push_value(
    alloc: Global,
    types: &mut TypeTable,
    at: Place,
    v: CoreExpr,
    places: &mut Vec<Stored>,
) -> Result<(), Memory>
    requires at { IsPlaceIn (length types.old.forms) at }
    requires within { IsIn (length types.old.forms) v }
    requires places { AreStoredIn (length types.old.forms) places.old.items }
    ensures stored { OnOk result (map (stored_in types.new) places.new.items ≡ map (stored_in types.old) places.old.items ++ stored (place_in types.old at) (as_parameter (qualified_in types.old at.of) (seen (type_at types.old) v)) ∷ []) }
    ensures within { OnOk result (AreStoredIn (length types.new.forms) places.new.items) }
    ensures grows { Grows types.old types.new }
{
    let of = types.qualified(at.of.of, at.of.qualifiers)?;
    let value = passed_to(alloc, types, of, v)?;
    let stored = Stored {
        of,
        offset: at.offset,
        first: at.first,
        width: at.width,
        value,
    };
    places.push(stored)?;
    Ok(())
}

/// Stores a string over an array of characters as the literal itself.
fn store_text(
    types: &mut TypeTable,
    at: Place,
    c: CoreExpr,
    places: &mut Vec<Stored>,
) -> Result<(), Memory>
    requires at { IsPlaceIn (length types.old.forms) at }
    requires within { IsIn (length types.old.forms) c }
    requires text { text_over (qualified_in types.old at.of) (seen (type_at types.old) c) ≡ true }
    requires places { AreStoredIn (length types.old.forms) places.old.items }
    ensures stored { OnOk result (map (stored_in types.new) places.new.items ≡ map (stored_in types.old) places.old.items ++ filled_by (place_in types.old at) (seen (type_at types.old) c) ∷ []) }
    ensures within { OnOk result (AreStoredIn (length types.new.forms) places.new.items) }
    ensures grows { Grows types.old types.new }
{
    let of = text_array(types, c.line, at.of, bytes(&c))?;
    let stored = Stored {
        of,
        offset: at.offset,
        first: 0,
        width: 0,
        value: c,
    };
    places.push(stored)?;
    Ok(())
}
