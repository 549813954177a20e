//! Functions made whole (C89 3.7.1).
ghost use Rattle.std.specs.Prelude.{◌≡◌, ◌<◌, length, IfOk};
ghost use Rattle.c_types.specs.Table.{AreBelow, types as types_of};
ghost use Rattle.c_meaning.specs.StmtTrees.{IsStmtIn, stmt_of};
ghost use Rattle.c_meaning.specs.Units.{function_seen};
ghost use Rattle.c_units.specs.Wholes.{whole_function as function_whole};
ghost use Rattle.c_standings.specs.StandingLists.{meant};

use crate::statements::{Known, whole_statement};
use crate::texts::Texts;
use c_meaning::CoreFunction;
use c_standings::Standings;
use c_types::TypeTable;
use lcc_base::Memory;
use std::alloc::Global;

/// A function, made whole: its symbols and string literals by their places, and the copies of its calls behind its
/// locals.
pub fn whole_function(
    alloc: Global,
    types: &TypeTable,
    standings: &Standings,
    texts: &Texts,
    f: CoreFunction,
) -> Result<CoreFunction, Memory>
    requires of { f.of < length types.now.forms }
    requires locals { AreBelow (length types.now.forms) f.locals }
    requires body { IsStmtIn (length types.now.forms) (stmt_of f.body) }
    ensures whole { IfOk result (λ g. function_seen (types_of types.now) g ≡ function_whole (meant standings.now) texts.now (function_seen (types_of types.now) f)) }
    ensures of { IfOk result (λ g. g.of < length types.now.forms) }
    ensures locals { IfOk result (λ g. AreBelow (length types.now.forms) g.locals) }
    ensures body { IfOk result (λ g. IsStmtIn (length types.now.forms) (stmt_of g.body)) }
{
    let known = Known {
        alloc,
        types,
        standings,
        texts,
    };
    let mut whole = f;
    whole_statement(&known, &mut whole.locals, &mut whole.body)?;
    Ok(whole)
}
