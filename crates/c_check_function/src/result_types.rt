//! The specifiers of a function's definition (C89 3.7.1).
ghost use Rattle.std.specs.Prelude.{length};
ghost use Rattle.c_check_expr.specs.Known.{AreSymbolsIn};
ghost use Rattle.c_check_expr.specs.PartsSeen.{specified_seen};
ghost use Rattle.c_check_expr.specs.Walks.{IsSpecifiedIn, Walks};
ghost use Rattle.c_check_function.specs.FunctionsSeen.{maybe_specifiers_seen, result_in};

use c_ast::Specifiers;
use c_check_decl::pieces::is_inner_class;
use c_check_expr::pieces::{Specified, specifiers};
use c_symbols::Scopes;
use c_types::TypeTable;
use c_values::CheckFault;
use c_values::basic_places::INT;
use lcc_base::Items;
use std::alloc::Global;

/// The specifiers of a definition, checked, or those of an `int` where there are none.
pub(crate) fn result_specifiers(
    alloc: Global,
    scopes: &mut Scopes,
    types: &mut TypeTable,
    list: &Option<Specifiers>,
) -> Result<Specified, CheckFault>
    requires { AreSymbolsIn (length types.old.forms) scopes.old.symbols }
    ensures { Walks specified_seen IsSpecifiedIn (result_in scopes.old types.old (maybe_specifiers_seen list.now)) scopes.old types.old scopes.new types.new result }
{
    let Some(list) = list else {
        let classes = Items::new(alloc);
        let of = types.basic_type(INT);
        return Ok(Specified { classes, of });
    };
    let base = specifiers(alloc, scopes, types, list)?;
    if is_inner_class(base.classes.as_slice()) {
        let line = list.line;
        return Err(CheckFault::Constraint { number: 3, line });
    }
    Ok(base)
}
