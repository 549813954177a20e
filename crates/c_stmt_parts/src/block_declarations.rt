//! The declarations at a block's head (C89 3.6.2).
ghost use Rattle.std.specs.Prelude.{length, map};
ghost use Rattle.c_ast.specs.SeenUnits.{declaration_seen};
ghost use Rattle.c_check_expr.specs.Known.{AreSymbolsIn};
ghost use Rattle.c_check_expr.specs.Walks.{Walks};
ghost use Rattle.c_check_decl.specs.Declares.{AreDeclaredIn, declares_in};
ghost use Rattle.c_stmt_parts.specs.StatementsIn.{declarations_in};

use c_ast::Declaration;
use c_check_decl::Declares;
use c_check_decl::pieces::{declaration, nothing, together};
use c_symbols::Scopes;
use c_types::TypeTable;
use c_values::CheckFault;
use std::alloc::Global;

/// What declarations declare, one behind the other.
pub fn declarations(
    alloc: Global,
    scopes: &mut Scopes,
    types: &mut TypeTable,
    list: &[Declaration],
) -> Result<Declares, CheckFault>
    requires { AreSymbolsIn (length types.old.forms) scopes.old.symbols }
    ensures { Walks declares_in AreDeclaredIn (declarations_in scopes.old types.old (map declaration_seen list.now)) scopes.old types.old scopes.new types.new result }
{
    let mut all = nothing(alloc);
    for d in list {
        let one = declaration(alloc, scopes, types, d)?;
        all = together(all, one)?;
    }
    Ok(all)
}
