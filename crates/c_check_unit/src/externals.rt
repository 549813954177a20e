//! External declarations (C89 3.7).
ghost use Rattle.std.specs.Prelude.{◌≡◌, ℕ, length, map, IfOk};
ghost use Rattle.c_types.specs.Table.{Table};
ghost use Rattle.c_check_expr.specs.Known.{AreSymbolsIn};
ghost use Rattle.c_check_expr.specs.Walks.{Walks};
ghost use Rattle.c_check_decl.specs.Declares.{AreDeclaredIn, declares_in};
ghost use Rattle.c_check_function.specs.Defined.{AreDefinedIn, defines_in};
ghost use Rattle.c_units.specs.Externals.{no_parts as nothing, with_declared as declared_behind};
ghost use Rattle.c_unit_parts.specs.PartsIn.{ArePartsIn, parts_in};
ghost use Rattle.c_check_unit.specs.ExternalsIn.{external_in, external_seen, externals_in, with_defined};

use c_ast::{External, ExternalForm};
use c_check_decl::Declares;
use c_check_decl::pieces::declaration;
use c_check_function::{Defines, function};
use c_stmt_parts::push_all;
use c_symbols::Scopes;
use c_types::TypeTable;
use c_unit_parts::UnitParts;
use c_values::CheckFault;
use lcc_base::{Items, Memory};
use std::alloc::Global;

/// A unit without any declaration.
fn no_parts(alloc: Global) -> UnitParts
    ensures is { (t : Table) → parts_in t result ≡ nothing }
    ensures within { (n : ℕ) → ArePartsIn n result }
{
    UnitParts {
        functions: Items::new(alloc),
        objects: Items::new(alloc),
        linked: Items::new(alloc),
    }
}

/// What external declarations give a unit, in order.
pub(crate) fn externals(
    alloc: Global,
    scopes: &mut Scopes,
    types: &mut TypeTable,
    list: &[External],
) -> Result<UnitParts, CheckFault>
    requires { AreSymbolsIn (length types.old.forms) scopes.old.symbols }
    ensures { Walks parts_in ArePartsIn (externals_in scopes.old types.old nothing (map external_seen list.now)) scopes.old types.old scopes.new types.new result }
{
    let mut parts = no_parts(alloc);
    for e in list {
        parts = external(alloc, scopes, types, parts, e)?;
    }
    Ok(parts)
}

/// What the unit has behind an external declaration.
fn external(
    alloc: Global,
    scopes: &mut Scopes,
    types: &mut TypeTable,
    parts: UnitParts,
    e: &External,
) -> Result<UnitParts, CheckFault>
    requires symbols { AreSymbolsIn (length types.old.forms) scopes.old.symbols }
    requires parts { ArePartsIn (length types.old.forms) parts }
    ensures { Walks parts_in ArePartsIn (external_in scopes.old types.old (parts_in types.old parts) (external_seen e.now)) scopes.old types.old scopes.new types.new result }
{
    match &e.form {
        ExternalForm::Function(f) => {
            let defines = function(alloc, scopes, types, e.line, f)?;
            Ok(with_function(parts, defines)?)
        }
        ExternalForm::Declaration(d) => {
            let declares = declaration(alloc, scopes, types, d)?;
            Ok(with_declared(parts, declares)?)
        }
        ExternalForm::Empty => Ok(parts),
    }
}

/// The unit with a function's definition behind what it has.
fn with_function(parts: UnitParts, what: Defines) -> Result<UnitParts, Memory>
    ensures is { IfOk result (λ p. (t : Table) → parts_in t p ≡ with_defined (parts_in t parts) (defines_in t what)) }
    ensures within { IfOk result (λ p. (n : ℕ) → ArePartsIn n parts → AreDefinedIn n what → ArePartsIn n p) }
{
    let mut all = parts;
    all.functions.push(what.function)?;
    push_all(&mut all.objects, what.objects)?;
    push_all(&mut all.linked, what.linked)?;
    Ok(all)
}

/// The unit with what a declaration declares behind what it has.
fn with_declared(parts: UnitParts, what: Declares) -> Result<UnitParts, Memory>
    ensures is { IfOk result (λ p. (t : Table) → parts_in t p ≡ declared_behind (parts_in t parts) (declares_in t what)) }
    ensures within { IfOk result (λ p. (n : ℕ) → ArePartsIn n parts → AreDeclaredIn n what → ArePartsIn n p) }
{
    let mut all = parts;
    push_all(&mut all.objects, what.objects)?;
    push_all(&mut all.linked, what.linked)?;
    Ok(all)
}
