//! What is known of a name behind its initialiser: its completed type, and whether it is defined (C89 3.5.7, 3.7.2).
ghost use Rattle.std.specs.Prelude.{◌≡◌, ◌<◌, length, OnOk};
ghost use Rattle.c_types.specs.Table.{Grows, type_at};
ghost use Rattle.c_meaning.specs.Declarations.{definition as definition_of, is_definition_of as counts_as_definition, is_extern as externs, noted, recomposed, retyped, with_linked_whole, with_whole};
ghost use Rattle.c_check_expr.specs.Keeps.{Keeps};
ghost use Rattle.c_check_expr.specs.Known.{AreSymbolsIn, state_of};
ghost use Rattle.c_check_decl.specs.Named.{naming_in};

use crate::linkage::is_linked;
use crate::linked::compose;
use crate::naming::Naming;
use c_ast::Storage;
use c_symbols::{Scopes, Symbol, SymbolId};
use c_types::{TypeId, TypeTable};
use c_values::kinds;
use lcc_base::Memory;

/// Whether the declaration has the storage class `extern`.
pub(crate) fn is_extern(class: Option<Storage>) -> bool
    ensures { result ≡ externs class }
{
    class == Some(Storage::Extern)
}

/// The symbol, if there is one, gets this type.
fn retype(
    scopes: &mut Scopes,
    types: &TypeTable,
    id: Option<SymbolId>,
    of: TypeId,
) -> Result<(), Memory>
    requires symbols { AreSymbolsIn (length types.now.forms) scopes.old.symbols }
    requires of { of < length types.now.forms }
    ensures state { OnOk result (state_of scopes.new types.now ≡ retyped (state_of scopes.old types.now) (type_at types.now of) id) }
    ensures keeps { Keeps scopes.old types.now scopes.new types.now }
{
    let Some(id) = id else {
        return Ok(());
    };
    if id >= scopes.count() {
        // Names stand with symbols that were declared.
        return Err(Memory);
    }
    let symbol = *scopes.symbol(id);
    scopes.replace(
        id,
        Symbol {
            class: symbol.class,
            of,
            line: symbol.line,
            level: symbol.level,
            value: symbol.value,
        },
    );
    Ok(())
}

/// The symbol, if there is one, gets the composite of its type and this one.
fn recompose(
    scopes: &mut Scopes,
    types: &mut TypeTable,
    id: Option<SymbolId>,
    of: TypeId,
) -> Result<(), Memory>
    requires symbols { AreSymbolsIn (length types.old.forms) scopes.old.symbols }
    requires of { of < length types.old.forms }
    ensures state { OnOk result (state_of scopes.new types.new ≡ recomposed (state_of scopes.old types.old) (type_at types.old of) id) }
    ensures keeps { Keeps scopes.old types.old scopes.new types.new }
    ensures grows { Grows types.old types.new }
{
    match id {
        Some(id) => compose(scopes, types, id, of),
        None => Ok(()),
    }
}

/// 1 for a definition, and 0 for a tentative one before any other.
fn definition(initialised: bool, before: Option<i64>) -> Option<i64>
    ensures { result ≡ definition_of initialised before }
{
    match before {
        Some(n) if !initialised => Some(n),
        _ => Some(i64::from(initialised)),
    }
}

/// Notes at the symbol, if there is one, that what all declarations of its name declare is defined, or
/// tentatively so where it isn't initialised (C89 3.7.2). Where no such symbol was declared, the answer is that
/// of refused memory.
pub fn note(
    scopes: &mut Scopes,
    types: &TypeTable,
    initialised: bool,
    id: Option<SymbolId>,
) -> Result<(), Memory>
    requires { AreSymbolsIn (length types.now.forms) scopes.old.symbols }
    ensures state { OnOk result (state_of scopes.new types.now ≡ noted (state_of scopes.old types.now) initialised id) }
    ensures keeps { Keeps scopes.old types.now scopes.new types.now }
{
    let Some(id) = id else {
        return Ok(());
    };
    if id >= scopes.count() {
        // Names stand with symbols that were declared.
        return Err(Memory);
    }
    let symbol = *scopes.symbol(id);
    scopes.replace(
        id,
        Symbol {
            class: symbol.class,
            of: symbol.of,
            line: symbol.line,
            level: symbol.level,
            value: definition(initialised, symbol.value),
        },
    );
    Ok(())
}

/// Whether the declaration of a name with linkage defines an object, or does so tentatively.
fn is_definition_of(types: &TypeTable, n: &Naming, initialised: bool) -> bool
    requires { n.now.of < length types.now.forms }
    ensures { result ≡ counts_as_definition (naming_in types.now n.now) initialised }
{
    !kinds::is_function(types, n.of) && (initialised || !is_extern(n.class))
}

/// What is known of a name with linkage behind its initialiser.
fn define_linked(
    scopes: &mut Scopes,
    types: &mut TypeTable,
    n: &Naming,
    initialised: bool,
) -> Result<(), Memory>
    requires symbols { AreSymbolsIn (length types.old.forms) scopes.old.symbols }
    requires of { n.now.of < length types.old.forms }
    ensures state { OnOk result (state_of scopes.new types.new ≡ with_linked_whole (state_of scopes.old types.old) (naming_in types.old n.now) initialised) }
    ensures keeps { Keeps scopes.old types.old scopes.new types.new }
    ensures grows { Grows types.old types.new }
{
    if !is_definition_of(types, n, initialised) {
        return Ok(());
    }
    let link = scopes.linked(n.name.as_slice());
    let here = scopes.find_here(n.name.as_slice());
    recompose(scopes, types, link, n.of)?;
    recompose(scopes, types, here, n.of)?;
    note(scopes, types, initialised, link)
}

/// What is known of a name behind its initialiser, if it has one.
pub(crate) fn define(
    scopes: &mut Scopes,
    types: &mut TypeTable,
    n: &Naming,
    initialised: bool,
) -> Result<(), Memory>
    requires symbols { AreSymbolsIn (length types.old.forms) scopes.old.symbols }
    requires of { n.now.of < length types.old.forms }
    ensures state { OnOk result (state_of scopes.new types.new ≡ with_whole (state_of scopes.old types.old) (naming_in types.old n.now) initialised) }
    ensures keeps { Keeps scopes.old types.old scopes.new types.new }
    ensures grows { Grows types.old types.new }
{
    if is_linked(n.linkage) {
        define_linked(scopes, types, n, initialised)
    } else {
        retype(scopes, types, scopes.find_here(n.name.as_slice()), n.of)
    }
}
