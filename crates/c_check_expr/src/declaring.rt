//! Names declared in the innermost scope, with what is known of them (C89 3.1.2.1).
ghost use Rattle.std.specs.Prelude.{◌≡◌, ◌<◌, None, length, IfOk, OnOk};
ghost use Rattle.c_symbols.specs.Scoping.{symbol_named};
ghost use Rattle.c_types.specs.Table.{types as table_types};
ghost use Rattle.c_meaning.specs.State.{declared};
ghost use Rattle.c_check_expr.specs.Keeps.{Keeps};
ghost use Rattle.c_check_expr.specs.Known.{AreSymbolsIn, known_of, state_of};

use c_symbols::{Declare, Scopes, Symbol};
use c_types::TypeTable;
use lcc_base::Memory;

/// The level of the innermost scope. No source has scopes as deep as a number of 32 bits counts.
pub fn level(scopes: &Scopes) -> Result<u32, Memory>
    ensures { IfOk result (λ n. n ≡ length scopes.now.outer) }
{
    u32::try_from(scopes.level()).map_err(|_| Memory)
}

/// Declares a name that the innermost scope doesn't have.
pub fn declare(
    scopes: &mut Scopes,
    types: &TypeTable,
    name: &[u8],
    symbol: Symbol,
) -> Result<(), Memory>
    requires symbols { AreSymbolsIn (length types.now.forms) scopes.old.symbols }
    requires of { symbol.of < length types.now.forms }
    requires absent { symbol_named scopes.old.inner name.now ≡ None }
    ensures state { OnOk result (state_of scopes.new types.now ≡ declared (state_of scopes.old types.now) name.now (known_of (table_types types.now) symbol)) }
    ensures keeps { Keeps scopes.old types.now scopes.new types.now }
{
    match scopes.declare(name, symbol) {
        Ok(_) => Ok(()),
        Err(Declare::Memory) => Err(Memory),
        Err(Declare::Redeclared { .. }) => unreachable!(),
    }
}
