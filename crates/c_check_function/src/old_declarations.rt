//! Declarations of old-style parameters (C89 3.7.1).
ghost use Rattle.std.specs.Prelude.{◌≡◌, ◌<◌, length, map};
ghost use Rattle.c_ast.specs.SeenUnits.{declaration_seen, init_seen};
ghost use Rattle.c_types.specs.Table.{Table};
ghost use Rattle.c_meaning.specs.Declaring.{declares_something as declares_some};
ghost use Rattle.c_check_expr.specs.Known.{AreSymbolsIn, state_of};
ghost use Rattle.c_check_expr.specs.PartsSeen.{specified_seen};
ghost use Rattle.c_check_expr.specs.Walks.{Walks};
ghost use Rattle.c_units.specs.Functions.{has_other as other_in, is_some_init, old_declaration_constraint};
ghost use Rattle.c_check_function.specs.FunctionsSeen.{no_types, no_value, old_declaration_in, old_declarations_in, olds_in};

use crate::listed_names::has_other;
use crate::old_parameters::old_parameter;
use c_ast::{Declaration, InitDeclarator};
use c_check_decl::pieces::{declares_something, inside};
use c_check_expr::pieces::Specified;
use c_symbols::Scopes;
use c_types::TypeTable;
use c_values::CheckFault;
use lcc_base::Bytes;
use std::alloc::Global;

/// The declarations between a definition's declarator and its body, whose parameters have these names.
pub(crate) fn old_declarations(
    alloc: Global,
    scopes: &mut Scopes,
    types: &mut TypeTable,
    names: &[Bytes],
    list: &[Declaration],
) -> Result<(), CheckFault>
    requires { AreSymbolsIn (length types.old.forms) scopes.old.symbols }
    ensures { Walks no_value no_types (old_declarations_in scopes.old types.old names.now (map declaration_seen list.now)) scopes.old types.old scopes.new types.new result }
{
    for d in list {
        old_declaration(alloc, scopes, types, names, d)?;
    }
    Ok(())
}

/// One of these declarations.
fn old_declaration(
    alloc: Global,
    scopes: &mut Scopes,
    types: &mut TypeTable,
    names: &[Bytes],
    d: &Declaration,
) -> Result<(), CheckFault>
    requires { AreSymbolsIn (length types.old.forms) scopes.old.symbols }
    ensures { Walks no_value no_types (old_declaration_in scopes.old types.old names.now (declaration_seen d.now)) scopes.old types.old scopes.new types.new result }
{
    let list = d.declarators.as_slice();
    let base = inside(alloc, scopes, types, &d.specifiers, list)?;
    old_parameters(alloc, scopes, types, d.line, (names, &base), list)?;
    if let Some(number) = broken(scopes, names, d) {
        return Err(CheckFault::Constraint {
            number,
            line: d.line,
        });
    }
    Ok(())
}

/// The first constraint that a declaration breaks whose parameters are in force.
fn broken(scopes: &Scopes, names: &[Bytes], d: &Declaration) -> Option<u8>
    ensures { (t : Table) → result ≡ old_declaration_constraint (declares_some (declaration_seen d.now)) (other_in (state_of scopes.now t) names.now) (is_some_init (declaration_seen d.now).declarators) }
{
    if !declares_something(d) {
        Some(4)
    } else if has_other(scopes, names) {
        Some(5)
    } else if d.declarators.as_slice().is_empty() {
        Some(19)
    } else {
        None
    }
}

/// The parameters of a declaration on this line, in order.
fn old_parameters(
    alloc: Global,
    scopes: &mut Scopes,
    types: &mut TypeTable,
    line: u32,
    listed: (&[Bytes], &Specified),
    list: &[InitDeclarator],
) -> Result<(), CheckFault>
    requires symbols { AreSymbolsIn (length types.old.forms) scopes.old.symbols }
    requires base { listed.1.now.of < length types.old.forms }
    ensures { Walks no_value no_types (olds_in scopes.old types.old line listed.entry.0.now (specified_seen types.old listed.entry.1.now) (map init_seen list.now)) scopes.old types.old scopes.new types.new result }
{
    for i in list {
        old_parameter(alloc, scopes, types, line, listed, i)?;
    }
    Ok(())
}
