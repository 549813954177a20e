//! The functions and objects of a unit, made whole (C89 3.7).
ghost use Rattle.std.specs.Prelude.{◌≡◌, ℕ, length, map, IfOk};
ghost use Rattle.c_check_decl.specs.Declares.{AreObjectsIn, defined_in};
ghost use Rattle.c_check_expr.specs.Known.{state_of};
ghost use Rattle.c_meaning.specs.Each.{EachIs};
ghost use Rattle.c_meaning.specs.Units.{IsFunctionIn, IsObjectIn, function_seen, object_seen};
ghost use Rattle.c_standings.specs.StandingLists.{meant};
ghost use Rattle.c_types.specs.Table.{Table, types as types_of};
ghost use Rattle.c_unit_parts.specs.PartsIn.{AreFunctionsIn, function_in};
ghost use Rattle.c_units.specs.Wholes.{whole_functions, whole_objects};

use crate::links::is_marked;
use c_check_decl::DefinedObject;
use c_meaning::{CoreFunction, CoreObject};
use c_standings::Standings;
use c_symbols::Scopes;
use c_types::TypeTable;
use c_unit_ends::linked_symbols;
use c_unit_parts::DefinedFunction;
use c_wholes::{Texts, whole_function, whole_object};
use lcc_base::{Items, Memory};
use std::alloc::Global;

/// The functions, each made whole.
pub(crate) fn made_functions(
    alloc: Global,
    types: &TypeTable,
    standings: &Standings,
    texts: &Texts,
    functions: Items<DefinedFunction>,
) -> Result<Items<CoreFunction>, Memory>
    requires { AreFunctionsIn (length types.now.forms) functions }
    ensures is { IfOk result (λ l. map (function_seen (types_of types.now)) l ≡ whole_functions (meant standings.now) texts.now (map (function_in types.now) functions)) }
    ensures within { IfOk result (λ l. EachIs (IsFunctionIn (length types.now.forms)) l) }
{
    let mut list = Items::with_capacity(alloc, functions.len())?;
    for f in functions.into_vec() {
        let function = whole_function(alloc, types, standings, texts, f.function)?;
        list.push(function)?;
    }
    Ok(list)
}

/// The objects, each made whole.
pub(crate) fn made_objects(
    alloc: Global,
    scopes: &Scopes,
    standings: &Standings,
    texts: &Texts,
    objects: Items<DefinedObject>,
) -> Result<Items<CoreObject>, Memory>
    ensures is { IfOk result (λ l. (t : Table) → map (object_seen (types_of t)) l ≡ whole_objects (state_of scopes.now t) (meant standings.now) texts.now 0 (map (defined_in t) objects)) }
    ensures within { IfOk result (λ l. (n : ℕ) → AreObjectsIn n objects → EachIs (IsObjectIn n) l) }
{
    scopes.names_are_declared();
    let linked = linked_symbols(alloc, scopes.links(), scopes.count())?;
    let mut list = Items::with_capacity(alloc, objects.len())?;
    for o in objects.into_vec() {
        let place = list.len();
        let is_linked = is_marked(linked.as_slice(), o.symbol);
        let object = whole_object(alloc, standings, texts, is_linked, place, o.object)?;
        list.push(object)?;
    }
    Ok(list)
}
