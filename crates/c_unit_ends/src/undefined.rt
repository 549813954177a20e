//! What is named and not defined, or defined otherwise (C89 3.7, 2.1.2.2).
ghost use Rattle.std.specs.Prelude.{◌≡◌, ◌<◌, None, length, map, IfErr, OnOk};
ghost use Rattle.c_types.specs.Table.{type_at};
ghost use Rattle.c_check_decl.specs.Declares.{AreLinkedIn, linked_in};
ghost use Rattle.c_check_expr.specs.Known.{AreSymbolsIn, state_of};
ghost use Rattle.c_check_expr.specs.StepFaults.{IsFault};
ghost use Rattle.c_standings.specs.StandingLists.{of_symbol};
ghost use Rattle.c_units.specs.Ends.{missing_at, names_fault};
ghost use Rattle.c_unit_ends.specs.NameFaults.{is_other as stands_otherwise, other_in};
ghost use Rattle.c_unit_ends.specs.Standing.{AreStandings};
ghost use Rattle.c_unit_parts.specs.PartsIn.{ArePartsIn, parts_in};

use crate::built_in_types::fits;
use crate::called::called;
use crate::main_function::has_main;
use crate::uses::{in_functions, in_objects, least};
use c_check_decl::LinkedName;
use c_standings::{Standing, Standings};
use c_symbols::Scopes;
use c_types::TypeTable;
use c_unit_parts::UnitParts;
use c_values::CheckFault;
use std::alloc::Global;

/// Nothing, unless constraint 52 is broken: `main` isn't defined as it may be, which is told at line 1; then a name is
/// used that nothing defines, at the least line of such uses; then a built-in function is declared otherwise, at the
/// least line of such declarations.
pub fn names(
    alloc: Global,
    scopes: &Scopes,
    types: &TypeTable,
    parts: &UnitParts,
    standings: &Standings,
) -> Result<(), CheckFault>
    requires symbols { AreSymbolsIn (length types.now.forms) scopes.now.symbols }
    requires parts { ArePartsIn (length types.now.forms) parts.now }
    requires standings { AreStandings (state_of scopes.now types.now) (parts_in types.now parts.now) standings.now }
    ensures sound { OnOk result (names_fault (state_of scopes.now types.now) (parts_in types.now parts.now) ≡ None) }
    ensures told { IfErr result (λ e. IsFault e (names_fault (state_of scopes.now types.now) (parts_in types.now parts.now))) }
{
    if !has_main(types, parts.functions.as_slice()) {
        return missing(Some(1));
    }
    let in_initialisers = in_objects(standings, None, parts.objects.as_slice());
    missing(in_functions(standings, in_initialisers, parts.functions.as_slice()))?;
    let declared = declared_otherwise(types, standings, parts.linked.as_slice());
    missing(called(alloc, scopes, types, standings, declared)?)
}

/// Constraint 52 at this line, if there is one.
fn missing(line: Option<u32>) -> Result<(), CheckFault>
    ensures sound { OnOk result (missing_at line ≡ None) }
    ensures told { IfErr result (λ e. IsFault e (missing_at line)) }
{
    match line {
        Some(line) => Err(CheckFault::Constraint { number: 52, line }),
        None => Ok(()),
    }
}

/// The least line of a declaration of a built-in function with another type than it has.
fn declared_otherwise(types: &TypeTable, standings: &Standings, list: &[LinkedName]) -> Option<u32>
    requires { AreLinkedIn (length types.now.forms) list.now }
    ensures { result ≡ other_in standings.now None (map (linked_in types.now) list.now) }
{
    let mut found = None;
    for name in list {
        if is_other(types, standings, name) {
            found = least(found, name.line);
        }
    }
    found
}

/// Whether this is a declaration of a built-in function with another type than it has.
fn is_other(types: &TypeTable, standings: &Standings, name: &LinkedName) -> bool
    requires { name.now.of < length types.now.forms }
    ensures { result ≡ stands_otherwise (of_symbol standings.now name.now.symbol) (type_at types.now name.now.of) }
{
    match standings.of(name.symbol) {
        Some(Standing::BuiltIn(built_in)) => !fits(types, built_in, name.of),
        _ => false,
    }
}
