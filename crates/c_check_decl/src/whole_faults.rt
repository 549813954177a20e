//! The constraints on a declared name behind its initialiser, if it has one (C89 3.1.2.6, 3.5.7, 3.7.2).
ghost use Rattle.std.specs.Prelude.{◌≡◌, ◌<◌, length};
ghost use Rattle.c_types.specs.Table.{Table, type_at};
ghost use Rattle.c_meaning.specs.Declarations.{Whole, decl_constraints, defines as does_define, differs_from, is_defined as was_defined, is_typedef as typedefs};
ghost use Rattle.c_meaning.specs.NodeConstraints.{first_of};
ghost use Rattle.c_check_expr.specs.Known.{AreSymbolsIn, state_of};
ghost use Rattle.c_check_decl.specs.Named.{naming_in};

use crate::linkage::is_linked;
use crate::naming::Naming;
use c_ast::Storage;
use c_check_expr::pieces::symbol_type;
use c_symbols::{Scopes, SymbolId};
use c_types::{TypeId, TypeTable};
use c_values::kinds;

/// Whether the declaration names a type.
pub fn is_typedef(class: Option<Storage>) -> bool
    ensures { result ≡ typedefs class }
{
    class == Some(Storage::Typedef)
}

/// Whether the type isn't compatible with the symbol's.
fn differs(scopes: &Scopes, types: &TypeTable, of: TypeId, id: Option<SymbolId>) -> bool
    requires symbols { AreSymbolsIn (length types.now.forms) scopes.now.symbols }
    requires of { of < length types.now.forms }
    ensures { result ≡ differs_from (state_of scopes.now types.now) (type_at types.now of) id }
{
    match id {
        Some(id) => !types.compatible(of, symbol_type(scopes, types, id)),
        None => false,
    }
}

/// Whether what the symbol stands for was defined.
pub fn is_defined(scopes: &Scopes, id: Option<SymbolId>) -> bool
    ensures { (t : Table) → result ≡ was_defined (state_of scopes.now t) id }
{
    match id {
        Some(id) if id < scopes.count() => match scopes.symbol(id).value {
            Some(n) => n > 0,
            None => false,
        },
        _ => false,
    }
}

/// Whether the declaration is the object's definition.
fn defines(types: &TypeTable, n: &Naming, initialised: bool) -> bool
    requires { n.now.of < length types.now.forms }
    ensures { result ≡ does_define (naming_in types.now n.now) initialised }
{
    !is_typedef(n.class)
        && !kinds::is_function(types, n.of)
        && (initialised || !is_linked(n.linkage))
}

/// The first constraint that a name breaks behind its initialiser.
pub(crate) fn whole_fault(
    scopes: &Scopes,
    types: &TypeTable,
    n: &Naming,
    initialised: bool,
) -> Option<u8>
    requires symbols { AreSymbolsIn (length types.now.forms) scopes.now.symbols }
    requires of { n.now.of < length types.now.forms }
    ensures { result ≡ first_of decl_constraints (state_of scopes.now types.now) (Whole (naming_in types.now n.now) initialised) }
{
    let name = n.name.as_slice();
    let link = scopes.linked(name);
    let is_linked = is_linked(n.linkage);
    if is_linked
        && (differs(scopes, types, n.of, scopes.find_here(name))
            || differs(scopes, types, n.of, link))
    {
        return Some(6);
    }
    if initialised && is_linked && is_defined(scopes, link) {
        return Some(7);
    }
    if defines(types, n, initialised) && types.size(n.of).is_none() {
        return Some(16);
    }
    None
}
