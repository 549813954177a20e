//! How many local objects the function has so far, which stands under the empty name.
ghost use Rattle.std.specs.Prelude.{◌≡◌, ◌<◌, length, IfOk, OnOk};
ghost use Rattle.c_types.specs.Table.{Table, types as table_types};
ghost use Rattle.c_meaning.specs.Linkage.{count_known, local_count as locals_so_far, with_count};
ghost use Rattle.c_meaning.specs.Rows.{nat_of};
ghost use Rattle.c_meaning.specs.State.{declared};
ghost use Rattle.c_check_expr.specs.Keeps.{Keeps};
ghost use Rattle.c_check_expr.specs.Known.{AreSymbolsIn, known_of, state_of};

use c_check_expr::pieces::{declare, level};
use c_symbols::{Scopes, Storage, Symbol};
use c_types::TypeTable;
use c_values::basic_places::INT;
use lcc_base::Memory;

/// The name that no identifier is.
const COUNT_NAME: &[u8] = &[];

/// The magnitude of the value, 0 where there is none.
fn magnitude(value: Option<i64>) -> u64
    ensures { result ≡ nat_of value 0 }
{
    match value {
        Some(n) => n.unsigned_abs(),
        None => 0,
    }
}

/// How many local objects the function has so far, which is the place that the next one has.
pub fn local_count(scopes: &Scopes) -> u64
    ensures { (t : Table) → result ≡ locals_so_far (state_of scopes.now t) }
{
    match scopes.find(COUNT_NAME) {
        Some(id) => magnitude(scopes.symbol(id).value),
        None => 0,
    }
}

/// Declares a name in the innermost scope. Where that has it, the answer is that of refused memory: who
/// asks has told the constraint.
pub(crate) fn declare_new(
    scopes: &mut Scopes,
    types: &TypeTable,
    name: &[u8],
    symbol: Symbol,
) -> Result<(), Memory>
    requires symbols { AreSymbolsIn (length types.now.forms) scopes.old.symbols }
    requires of { symbol.of < length types.now.forms }
    ensures state { OnOk result (state_of scopes.new types.now ≡ declared (state_of scopes.old types.now) name.now (known_of (table_types types.now) symbol)) }
    ensures keeps { Keeps scopes.old types.now scopes.new types.now }
{
    if scopes.find_here(name).is_some() {
        return Err(Memory);
    }
    declare(scopes, types, name, symbol)
}

/// The symbol that tells the number.
fn count_symbol(types: &TypeTable, level: u32, n: u64) -> Result<Symbol, Memory>
    ensures within { IfOk result (λ y. y.of < length types.now.forms) }
    ensures is { IfOk result (λ y. known_of (table_types types.now) y ≡ count_known level n) }
{
    let Ok(value) = i64::try_from(n) else {
        // No function has as many locals.
        return Err(Memory);
    };
    Ok(Symbol {
        class: Storage::Tag,
        of: types.basic_type(INT),
        line: 0,
        level,
        value: Some(value),
    })
}

/// From here on the function has so many local objects, in all scopes from the one on in which the number
/// stands; where none has it, in the innermost scope. Where the number is above 2^63 - 1, the answer is that of
/// refused memory.
pub fn set_count(scopes: &mut Scopes, types: &TypeTable, n: u64) -> Result<(), Memory>
    requires { AreSymbolsIn (length types.now.forms) scopes.old.symbols }
    ensures state { OnOk result (state_of scopes.new types.now ≡ with_count (state_of scopes.old types.now) n) }
    ensures keeps { Keeps scopes.old types.now scopes.new types.now }
{
    let Some(id) = scopes.find(COUNT_NAME) else {
        let level = level(scopes)?;
        return declare_new(scopes, types, COUNT_NAME, count_symbol(types, level, n)?);
    };
    let level = scopes.symbol(id).level;
    scopes.replace(id, count_symbol(types, level, n)?);
    Ok(())
}
