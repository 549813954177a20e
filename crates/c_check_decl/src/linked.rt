//! Names with linkage, declared: one symbol for what all declarations of a name declare, and the name in its scope
//! (C89 3.1.2.2, 3.1.2.6).
ghost use Rattle.std.specs.Prelude.{◌≡◌, ◌<◌, length, IfOk, OnOk};
ghost use Rattle.c_symbols.specs.Scoping.{symbol_named};
ghost use Rattle.c_types.specs.Table.{Grows, type_at};
ghost use Rattle.c_meaning.specs.Linkage.{composed, linked_by, linked_class as class_of_linkage, with_linked, with_name_of};
ghost use Rattle.c_meaning.specs.State.{link_or_next};
ghost use Rattle.c_check_expr.specs.Keeps.{Keeps};
ghost use Rattle.c_check_expr.specs.Known.{AreSymbolsIn, state_of};
ghost use Rattle.c_check_decl.specs.Named.{linked};

use crate::counting::declare_new;
use crate::linkage::{Linkage, is_linked};
use crate::naming::Naming;
use crate::unlinked::{declare_unlinked, plain_symbol};
use c_symbols::{Scopes, Storage as Class, Symbol, SymbolId};
use c_types::{TypeId, TypeTable};
use lcc_base::Memory;

/// The class of the symbols of a name with this linkage.
fn linked_class(linkage: Linkage) -> Class
    ensures { result ≡ class_of_linkage (linked linkage) }
{
    match linkage {
        Linkage::Internal => Class::Static,
        _ => Class::Extern,
    }
}

/// The symbol gets the composite of its type and this one. Where these aren't compatible, or no such
/// symbol was declared, the answer is that of refused memory: who asks has told the constraint.
pub(crate) fn compose(
    scopes: &mut Scopes,
    types: &mut TypeTable,
    id: SymbolId,
    of: TypeId,
) -> Result<(), Memory>
    requires symbols { AreSymbolsIn (length types.old.forms) scopes.old.symbols }
    requires of { of < length types.old.forms }
    ensures state { OnOk result (state_of scopes.new types.new ≡ composed (state_of scopes.old types.old) id (type_at types.old of)) }
    ensures keeps { Keeps scopes.old types.old scopes.new types.new }
    ensures grows { Grows types.old types.new }
{
    if id >= scopes.count() {
        return Err(Memory);
    }
    let symbol = *scopes.symbol(id);
    if !types.compatible(symbol.of, of) {
        return Err(Memory);
    }
    let whole = types.composite(symbol.of, of)?;
    scopes.replace(
        id,
        Symbol {
            class: symbol.class,
            of: whole,
            line: symbol.line,
            level: symbol.level,
            value: symbol.value,
        },
    );
    Ok(())
}

/// The symbol for all declarations of the name, which has the type of this one too.
fn link_name(
    scopes: &mut Scopes,
    types: &mut TypeTable,
    line: u32,
    n: &Naming,
) -> Result<SymbolId, Memory>
    requires symbols { AreSymbolsIn (length types.old.forms) scopes.old.symbols }
    requires of { n.now.of < length types.old.forms }
    ensures id { IfOk result (λ id. id ≡ link_or_next (state_of scopes.old types.old) n.now.name) }
    ensures state { OnOk result (state_of scopes.new types.new ≡ linked_by (state_of scopes.old types.old) line (linked n.now.linkage) n.now.name (type_at types.old n.now.of) (symbol_named scopes.old.links n.now.name)) }
    ensures keeps { Keeps scopes.old types.old scopes.new types.new }
    ensures grows { Grows types.old types.new }
{
    let name = n.name.as_slice();
    if let Some(id) = scopes.linked(name) {
        compose(scopes, types, id, n.of)?;
        return Ok(id);
    }
    let symbol = Symbol {
        class: linked_class(n.linkage),
        of: n.of,
        line,
        level: 0,
        value: None,
    };
    match scopes.link(name, symbol) {
        Ok(id) => Ok(id),
        // It had none.
        Err(_) => Err(Memory),
    }
}

/// Declares a name with linkage in the innermost scope, or gives it the composite of the types there.
fn declare_linked(
    scopes: &mut Scopes,
    types: &mut TypeTable,
    line: u32,
    n: &Naming,
) -> Result<(), Memory>
    requires symbols { AreSymbolsIn (length types.old.forms) scopes.old.symbols }
    requires of { n.now.of < length types.old.forms }
    ensures state { OnOk result (state_of scopes.new types.new ≡ with_linked (state_of scopes.old types.old) line (linked n.now.linkage) n.now.name (type_at types.old n.now.of)) }
    ensures keeps { Keeps scopes.old types.old scopes.new types.new }
    ensures grows { Grows types.old types.new }
{
    let link = link_name(scopes, types, line, n)?;
    let name = n.name.as_slice();
    if let Some(id) = scopes.find_here(name) {
        return compose(scopes, types, id, n.of);
    }
    let Ok(value) = i64::try_from(link) else {
        // No source declares as many names.
        return Err(Memory);
    };
    let symbol = plain_symbol(scopes, line, linked_class(n.linkage), n.of, Some(value))?;
    declare_new(scopes, types, name, symbol)
}

/// Declares a name on this line in the innermost scope, where it is in force from its declarator on (C89
/// 3.1.2.1). One with linkage has a symbol more for all its declarations, and each of both symbols gets the
/// composite of the types that were declared at it (C89 3.1.2.6). A local object gets the next place of its
/// function. Where the scope has a name without linkage already, or types aren't compatible, the answer is
/// that of refused memory: who asks has told the constraint.
pub fn declare_name(
    scopes: &mut Scopes,
    types: &mut TypeTable,
    line: u32,
    n: &Naming,
) -> Result<(), Memory>
    requires symbols { AreSymbolsIn (length types.old.forms) scopes.old.symbols }
    requires of { n.now.of < length types.old.forms }
    ensures state { OnOk result (state_of scopes.new types.new ≡ with_name_of (state_of scopes.old types.old) line n.now.class (linked n.now.linkage) n.now.name (type_at types.old n.now.of)) }
    ensures keeps { Keeps scopes.old types.old scopes.new types.new }
    ensures grows { Grows types.old types.new }
{
    if is_linked(n.linkage) {
        declare_linked(scopes, types, line, n)
    } else {
        declare_unlinked(scopes, types, line, n)
    }
}
