//! Names without linkage, declared (C89 3.1.2.2, 3.5.1).
ghost use Rattle.std.specs.Prelude.{◌≡◌, ◌<◌, length, None, IfOk, OnOk};
ghost use Rattle.c_types.specs.Table.{Table, type_at, types as table_types};
ghost use Rattle.c_meaning.specs.Linkage.{plain as plain_known, with_alone, with_local};
ghost use Rattle.c_meaning.specs.State.{declared};
ghost use Rattle.c_check_expr.specs.Keeps.{Keeps};
ghost use Rattle.c_check_expr.specs.Known.{AreSymbolsIn, known_of, state_of};

use crate::counting::{declare_new, local_count, set_count};
use crate::naming::Naming;
use c_ast::Storage;
use c_check_expr::pieces::level;
use c_symbols::{Scopes, Storage as Class, Symbol};
use c_types::{TypeId, TypeTable};
use lcc_base::Memory;

/// A symbol in the innermost scope.
pub(crate) fn plain_symbol(
    scopes: &Scopes,
    line: u32,
    class: Class,
    of: TypeId,
    value: Option<i64>,
) -> Result<Symbol, Memory>
    ensures of { IfOk result (λ y. y.of ≡ of) }
    ensures is { (t : Table) → IfOk result (λ y. known_of (table_types t) y ≡ plain_known (state_of scopes.now t) line class (type_at t of) value) }
{
    let level = level(scopes)?;
    Ok(Symbol {
        class,
        of,
        line,
        level,
        value,
    })
}

/// A local object, the next one of its function.
fn declare_local(
    scopes: &mut Scopes,
    types: &TypeTable,
    line: u32,
    n: &Naming,
    class: Class,
) -> Result<(), Memory>
    requires symbols { AreSymbolsIn (length types.now.forms) scopes.old.symbols }
    requires of { n.now.of < length types.now.forms }
    ensures state { OnOk result (state_of scopes.new types.now ≡ with_local (state_of scopes.old types.now) line n.now.name class (type_at types.now n.now.of)) }
    ensures keeps { Keeps scopes.old types.now scopes.new types.now }
{
    let count = local_count(scopes);
    let (Ok(place), Some(next)) = (i64::try_from(count), count.checked_add(1)) else {
        // No function has as many locals.
        return Err(Memory);
    };
    let symbol = plain_symbol(scopes, line, class, n.of, Some(place))?;
    declare_new(scopes, types, n.name.as_slice(), symbol)?;
    set_count(scopes, types, next)
}

/// A name that is no object of a function: a type's, or a static object's.
fn declare_plain(
    scopes: &mut Scopes,
    types: &TypeTable,
    line: u32,
    n: &Naming,
    class: Class,
) -> Result<(), Memory>
    requires symbols { AreSymbolsIn (length types.now.forms) scopes.old.symbols }
    requires of { n.now.of < length types.now.forms }
    ensures state { OnOk result (state_of scopes.new types.now ≡ declared (state_of scopes.old types.now) n.now.name (plain_known (state_of scopes.old types.now) line class (type_at types.now n.now.of) None)) }
    ensures keeps { Keeps scopes.old types.now scopes.new types.now }
{
    let symbol = plain_symbol(scopes, line, class, n.of, None)?;
    declare_new(scopes, types, n.name.as_slice(), symbol)
}

/// Declares a name without linkage in the innermost scope.
pub(crate) fn declare_unlinked(
    scopes: &mut Scopes,
    types: &TypeTable,
    line: u32,
    n: &Naming,
) -> Result<(), Memory>
    requires symbols { AreSymbolsIn (length types.now.forms) scopes.old.symbols }
    requires of { n.now.of < length types.now.forms }
    ensures state { OnOk result (state_of scopes.new types.now ≡ with_alone (state_of scopes.old types.now) line n.now.class n.now.name (type_at types.now n.now.of)) }
    ensures keeps { Keeps scopes.old types.now scopes.new types.now }
{
    match n.class {
        Some(Storage::Typedef) => declare_plain(scopes, types, line, n, Class::Typedef),
        Some(Storage::Static) => declare_plain(scopes, types, line, n, Class::Static),
        Some(Storage::Register) => declare_local(scopes, types, line, n, Class::Register),
        _ => declare_local(scopes, types, line, n, Class::Auto),
    }
}
