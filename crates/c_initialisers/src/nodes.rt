//! What breaks at an initialiser whose parts are checked (C89 3.5.7).
ghost use Rattle.std.specs.Prelude.{◌≡◌, ◌<◌, length, not, true, ◌&&◌, None, Some, List};
ghost use Rattle.c_types.specs.CType.{CType};
ghost use Rattle.c_types.specs.Table.{tags, type_at};
ghost use Rattle.c_meaning.specs.AddressConstants.{is_static_value as static_value};
ghost use Rattle.c_meaning.specs.CoreTrees.{IsIn, seen};
ghost use Rattle.c_meaning.specs.Filling.{is_text_over as text_over};
ghost use Rattle.c_meaning.specs.Initialising.{Items as ItemsForm, Value, init_constraints, suits as does_suit};
ghost use Rattle.c_meaning.specs.NodeConstraints.{first_of};
ghost use Rattle.c_meaning.specs.State.{State};
ghost use Rattle.c_meaning.specs.Values.{CoreTree, value};
ghost use Rattle.c_initialisers.specs.Storing.{node_of};
ghost use Rattle.c_initialisers.specs.Waiting.{IsPlaceIn, place_in};
ghost use Rattle.c_values.specs.Valued.{qualified_in};

use crate::addresses::is_static_value;
use crate::kinds::{does_fill, is_scalar, is_text_over};
use crate::place::Place;
use crate::texts::is_long_text;
use c_meaning::CoreExpr;
use c_types::TypeTable;
use c_values::QualifiedType;
use c_values::assigning::is_assignable;

/// How an initialiser stands: for an object with static storage, where no initialiser may stand, and for
/// an object whose type can't be initialised.
#[derive(Clone, Copy)]
pub(crate) struct Standing {
    pub(crate) is_static: bool,
    pub(crate) is_barred: bool,
    pub(crate) is_unfit: bool,
}

/// Whether the object is static, and the expression neither a string over an array of characters nor of a
/// value that a static object may begin with.
fn is_not_constant(types: &TypeTable, standing: Standing, of: QualifiedType, c: &CoreExpr) -> bool
    requires of { of.of < length types.now.forms }
    requires within { IsIn (length types.now.forms) c.now }
    ensures { result ≡ (standing.is_static && (not (text_over (qualified_in types.now of) (seen (type_at types.now) c.now)) && not (static_value (tags types.now) (value (seen (type_at types.now) c.now))))) }
{
    standing.is_static && !is_text_over(types, of, c) && !is_static_value(types, c)
}

/// Whether the expression may be assigned to a scalar of the type, or fills an object of it as a whole.
fn suits(types: &TypeTable, of: QualifiedType, c: &CoreExpr) -> bool
    requires of { of.of < length types.now.forms }
    requires within { IsIn (length types.now.forms) c.now }
    ensures { result ≡ does_suit (qualified_in types.now of) (seen (type_at types.now) c.now) }
{
    if is_scalar(types, of) {
        // Qualifiers of the object don't matter.
        is_assignable(types, of.of, c)
    } else {
        does_fill(types, of, c)
    }
}

/// The number of the first constraint that an expression over its place breaks.
pub(crate) fn value_broken(
    types: &TypeTable,
    standing: Standing,
    at: Place,
    c: &CoreExpr,
) -> Option<u8>
    requires at { IsPlaceIn (length types.now.forms) at }
    requires within { IsIn (length types.now.forms) c.now }
    ensures { (s : State) → (completed : List CType) → s.tags ≡ tags types.now → first_of init_constraints s (node_of standing (Value (Some (place_in types.now at)) (seen (type_at types.now) c.now)) completed) ≡ result }
{
    if standing.is_barred {
        Some(22)
    } else if is_not_constant(types, standing, at.of, c) {
        Some(24)
    } else if !suits(types, at.of, c) {
        Some(25)
    } else if is_long_text(types, at.of, c) {
        Some(26)
    } else if standing.is_unfit {
        Some(27)
    } else {
        None
    }
}

/// The number of the first constraint that a list in braces breaks, of which is told whether an item found
/// no place, and whether it stands in the braces of a scalar.
pub(crate) fn list_broken(standing: Standing, excess: bool, within: bool) -> Option<u8>
    ensures { (s : State) → (completed : List CType) → first_of init_constraints s (node_of standing (ItemsForm excess within) completed) ≡ result }
{
    if standing.is_barred {
        Some(22)
    } else if excess {
        Some(23)
    } else if within {
        Some(25)
    } else if standing.is_unfit {
        Some(27)
    } else {
        None
    }
}

/// The number of the first constraint that an expression breaks over an object whose type can't be
/// initialised.
pub(crate) fn unplaced_broken(standing: Standing) -> u8
    requires { standing.is_unfit ≡ true }
    ensures { (s : State) → (c : CoreTree) → (completed : List CType) → first_of init_constraints s (node_of standing (Value None c) completed) ≡ Some result }
{
    if standing.is_barred { 22 } else { 27 }
}
