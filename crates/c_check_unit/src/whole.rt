//! A unit made whole (C89 3.7).
ghost use Rattle.std.specs.Prelude.{◌≡◌, codes, length, map, IfOk};
ghost use Rattle.std.specs.Str.{bytes_eq};
ghost use Rattle.c_check_expr.specs.Known.{state_of};
ghost use Rattle.c_meaning.specs.Each.{EachIs};
ghost use Rattle.c_meaning.specs.Units.{IsFunctionIn, IsObjectIn};
ghost use Rattle.c_types.specs.Table.{Table};
ghost use Rattle.c_unit_ends.specs.Standing.{AreStandings};
ghost use Rattle.c_unit_parts.specs.PartsIn.{ArePartsIn, function_in, parts_in};
ghost use Rattle.c_units.specs.Wholes.{main_from, whole_unit};
ghost use Rattle.c_check_unit.specs.WholeSeen.{whole_seen};

use crate::made::{made_functions, made_objects};
use crate::texts::noted;
use c_meaning::{CoreFunction, CoreObject};
use c_standings::Standings;
use c_symbols::Scopes;
use c_types::TypeTable;
use c_unit_parts::{DefinedFunction, UnitParts};
use lcc_base::{Bytes, Items, Memory};
use std::alloc::Global;

/// A unit in which symbols are functions, objects and built-in functions by their places, equal string literals
/// one text, and each call has places for the structures that it passes and gives.
#[derive(Drop)]
pub(crate) struct WholeUnit {
    pub(crate) functions: Items<CoreFunction>,
    pub(crate) objects: Items<CoreObject>,
    pub(crate) texts: Items<Bytes>,
    pub(crate) types: TypeTable,
    /// The place of `main` among the functions.
    pub(crate) main: u32,
}

/// The unit that has these parts, made whole.
pub(crate) fn whole(
    alloc: Global,
    scopes: &Scopes,
    types: TypeTable,
    standings: &Standings,
    parts: UnitParts,
) -> Result<WholeUnit, Memory>
    requires parts { ArePartsIn (length types.forms) parts }
    requires standings { AreStandings (state_of scopes.now types) (parts_in types parts) standings.now }
    ensures is { IfOk result (λ u. whole_seen u ≡ whole_unit (state_of scopes.now types) (parts_in types parts)) }
    ensures types { IfOk result (λ u. u.types ≡ types) }
    ensures functions { IfOk result (λ u. EachIs (IsFunctionIn (length u.types.forms)) u.functions) }
    ensures objects { IfOk result (λ u. EachIs (IsObjectIn (length u.types.forms)) u.objects) }
{
    let texts = noted(alloc, &parts)?;
    let main = main_place(parts.functions.as_slice())?;
    let functions = made_functions(alloc, &types, standings, &texts, parts.functions)?;
    let objects = made_objects(alloc, scopes, standings, &texts, parts.objects)?;
    let texts = texts.into_list(alloc)?;
    Ok(WholeUnit {
        functions,
        objects,
        texts,
        types,
        main,
    })
}

/// The place of the first function with the name `main`. 0 where there is none.
fn main_place(functions: &[DefinedFunction]) -> Result<u32, Memory>
    ensures { IfOk result (λ n. (t : Table) → n ≡ main_from 0 (map (function_in t) functions.now)) }
{
    for place in 0..functions.len() {
        if is_main(&functions[place]) {
            return number_of(place);
        }
    }
    Ok(0)
}

/// Whether the function has the name `main`.
fn is_main(f: &DefinedFunction) -> bool
    ensures { result ≡ bytes_eq f.now.function.name (codes "main") }
{
    f.function.name.as_slice() == b"main".as_slice()
}

/// The place as a unit has it. `Memory` comes where no unit has as many functions.
fn number_of(place: usize) -> Result<u32, Memory>
    ensures { IfOk result (λ n. n ≡ place) }
{
    u32::try_from(place).map_err(|_| Memory)
}
