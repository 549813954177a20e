//! Calls of built-in functions that nothing declares (C89 3.3.2.2).
ghost use Rattle.std.specs.Prelude.{◌≡◌, ◌<◌, ◌&&◌, length, not, IfOk, if◌then◌else◌};
ghost use Rattle.c_types.specs.Table.{type_at, types as types_of};
ghost use Rattle.c_check_expr.specs.Known.{AreSymbolsIn, all_known};
ghost use Rattle.c_units.specs.Ends.{least as least_line, linked_by};
ghost use Rattle.c_unit_ends.specs.NameFaults.{called_in, is_called};

use crate::built_in_types::gives_other;
use crate::links::linked_symbols;
use crate::uses::least;
use c_standings::{Standing, Standings};
use c_symbols::{Scopes, Storage, Symbol, SymbolId};
use c_types::TypeTable;
use lcc_base::Memory;
use std::alloc::Global;

/// The least line of a call that declares a built-in function with another result than it has, and of what was found.
pub(crate) fn called(
    alloc: Global,
    scopes: &Scopes,
    types: &TypeTable,
    standings: &Standings,
    found: Option<u32>,
) -> Result<Option<u32>, Memory>
    requires symbols { AreSymbolsIn (length types.now.forms) scopes.now.symbols }
    ensures { IfOk result (λ f. f ≡ called_in standings.now scopes.now.links 0 found (all_known (types_of types.now) scopes.now.symbols)) }
{
    scopes.names_are_declared();
    let linked = linked_symbols(alloc, scopes.links(), scopes.count())?;
    let mut least = found;
    for id in 0..scopes.count() {
        least = with_symbol(types, standings, least, linked[id], scopes.symbol(id));
    }
    Ok(least)
}

/// With a symbol, unless a name with linkage has it.
fn with_symbol(
    types: &TypeTable,
    standings: &Standings,
    found: Option<u32>,
    linked: bool,
    symbol: &Symbol,
) -> Option<u32>
    requires { symbol.now.of < length types.now.forms }
    ensures { result ≡ (if not linked && is_called standings.now (linked_by symbol.now.class symbol.now.value) (type_at types.now symbol.now.of) then least_line found symbol.now.line else found) }
{
    if !linked && is_other_call(types, standings, symbol) {
        least(found, symbol.line)
    } else {
        found
    }
}

/// Whether the symbol is a declaration of a built-in function with another result.
fn is_other_call(types: &TypeTable, standings: &Standings, symbol: &Symbol) -> bool
    requires { symbol.now.of < length types.now.forms }
    ensures { result ≡ is_called standings.now (linked_by symbol.now.class symbol.now.value) (type_at types.now symbol.now.of) }
{
    match linked_symbol(symbol) {
        Some(id) => match standings.of(id) {
            Some(Standing::BuiltIn(built_in)) => gives_other(types, built_in, symbol.of),
            _ => false,
        },
        None => false,
    }
}

/// The symbol of all declarations of the name, if this is one of a name with linkage.
fn linked_symbol(symbol: &Symbol) -> Option<SymbolId>
    ensures { result ≡ linked_by symbol.now.class symbol.now.value }
{
    match (symbol.class, symbol.value) {
        (Storage::Extern, Some(id)) => Some(id.unsigned_abs() as usize),
        _ => None,
    }
}
