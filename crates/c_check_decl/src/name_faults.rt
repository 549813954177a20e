//! The constraints on a declared name at its declarator (C89 3.1.2.2, 3.1.2.6, 3.5, 3.5.1), asked before its type is formed.
ghost use Rattle.std.specs.Prelude.{◌≡◌, ◌<◌, ◌&&◌, ◌||◌, length, not};
ghost use Rattle.c_symbols.specs.Scoping.{symbol_named};
ghost use Rattle.c_types.specs.Table.{Table, type_at};
ghost use Rattle.c_meaning.specs.Declarations.{Name, decl_constraints, differs as differ, differs_from, has_other_linkage as was_linked_otherwise, is_again as stands_again, is_function_class as fits_function};
ghost use Rattle.c_meaning.specs.NodeConstraints.{first_of};
ghost use Rattle.c_meaning.specs.Linkage.{class_linkage as linkage_of_class, is_linked as has_linkage, is_outside as outside};
ghost use Rattle.c_meaning.specs.State.{known_at};
ghost use Rattle.c_meaning.specs.TypeRows.{formed};
ghost use Rattle.c_check_expr.specs.Known.{AreSymbolsIn, state_of};
ghost use Rattle.c_check_expr.specs.PartsSeen.{AreStepsIn, steps_seen};
ghost use Rattle.c_check_decl.specs.Named.{linked};

use crate::fitting::{fits, makes_function};
use crate::linkage::{Linkage, class_linkage, is_linked, is_outside, linkage_at};
use c_ast::Storage;
use c_check_expr::pieces::{Step, symbol_type};
use c_symbols::{Scopes, SymbolId};
use c_types::{TypeId, TypeTable};

/// Whether a block may declare a function with this storage class.
fn is_function_class(class: Option<Storage>) -> bool
    ensures { result ≡ fits_function class }
{
    matches!(class, None | Some(Storage::Extern | Storage::Typedef))
}

/// 3: another storage class than `extern` on a block's function.
fn has_inner_class(scopes: &Scopes, class: Option<Storage>, function: bool) -> bool
    ensures { (t : Table) → result ≡ (not (outside (state_of scopes.now t)) && (function && not (fits_function class))) }
{
    !is_outside(scopes) && function && !is_function_class(class)
}

/// Whether the scope has the name, and one of both declarations has no linkage.
fn is_again(scopes: &Scopes, linkage: Linkage, id: Option<SymbolId>) -> bool
    ensures { (t : Table) → result ≡ stands_again (state_of scopes.now t) (linked linkage) id }
{
    id.is_some() && !(is_linked(linkage) && is_linked(linkage_at(scopes, id)))
}

/// Whether one is internal and the other external.
fn are_opposite(a: Linkage, b: Linkage) -> bool
    ensures { result ≡ differ (linked a) (linked b) }
{
    match a {
        Linkage::Alone => false,
        Linkage::Internal => b == Linkage::External,
        Linkage::External => b == Linkage::Internal,
    }
}

/// The linkage that the class of a symbol tells which stands for all declarations of its name.
fn linkage_of(scopes: &Scopes, id: SymbolId) -> Linkage
    ensures { (t : Table) → linked result ≡ linkage_of_class (known_at (state_of scopes.now t) id).class }
{
    if id < scopes.count() {
        class_linkage(scopes.symbol(id).class)
    } else {
        Linkage::External
    }
}

/// Whether the name was declared with the other linkage.
fn has_other_linkage(scopes: &Scopes, linkage: Linkage, id: Option<SymbolId>) -> bool
    ensures { (t : Table) → result ≡ was_linked_otherwise (state_of scopes.now t) (linked linkage) id }
{
    match id {
        Some(id) => are_opposite(linkage, linkage_of(scopes, id)),
        None => false,
    }
}

/// Whether constraint 5 is broken: the name is declared again in the innermost scope, where one of both
/// declarations has no linkage, or was declared with the other linkage (C89 3.1.2.2, 3.5).
pub fn is_declared_again(scopes: &Scopes, linkage: Linkage, name: &[u8]) -> bool
    ensures { (t : Table) → result ≡ (stands_again (state_of scopes.now t) (linked linkage) (symbol_named scopes.now.inner name.now) || was_linked_otherwise (state_of scopes.now t) (linked linkage) (symbol_named scopes.now.links name.now)) }
{
    is_again(scopes, linkage, scopes.find_here(name))
        || has_other_linkage(scopes, linkage, scopes.linked(name))
}

/// Whether what the steps make of the type isn't compatible with the symbol's type.
fn differs(scopes: &Scopes, types: &TypeTable, of: (TypeId, &[Step]), id: Option<SymbolId>) -> bool
    requires symbols { AreSymbolsIn (length types.now.forms) scopes.now.symbols }
    requires base { of.0 < length types.now.forms }
    requires steps { AreStepsIn (length types.now.forms) of.1.now }
    ensures { result ≡ differs_from (state_of scopes.now types.now) (formed (type_at types.now of.entry.0) (steps_seen types.now of.entry.1.now)) id }
{
    match id {
        Some(id) => !fits(types, of.0, of.1, symbol_type(scopes, types, id)),
        None => false,
    }
}

/// Whether constraint 6 is broken: the name has linkage, and another declaration of it has a type that isn't
/// compatible with what the steps make of this one (C89 3.1.2.6, 3.5).
pub fn is_declared_otherwise(
    scopes: &Scopes,
    types: &TypeTable,
    linkage: Linkage,
    name: &[u8],
    of: (TypeId, &[Step]),
) -> bool
    requires symbols { AreSymbolsIn (length types.now.forms) scopes.now.symbols }
    requires base { of.0 < length types.now.forms }
    requires steps { AreStepsIn (length types.now.forms) of.1.now }
    ensures { result ≡ (has_linkage (linked linkage) && (differs_from (state_of scopes.now types.now) (formed (type_at types.now of.entry.0) (steps_seen types.now of.entry.1.now)) (symbol_named scopes.now.inner name.now) || differs_from (state_of scopes.now types.now) (formed (type_at types.now of.entry.0) (steps_seen types.now of.entry.1.now)) (symbol_named scopes.now.links name.now))) }
{
    is_linked(linkage)
        && (differs(scopes, types, of, scopes.find_here(name))
            || differs(scopes, types, of, scopes.linked(name)))
}

/// The first constraint that a name breaks at its declarator, which would give it the type that the steps
/// make.
pub(crate) fn name_fault(
    scopes: &Scopes,
    types: &TypeTable,
    class: Option<Storage>,
    name: &[u8],
    linkage: Linkage,
    of: (TypeId, &[Step]),
) -> Option<u8>
    requires symbols { AreSymbolsIn (length types.now.forms) scopes.now.symbols }
    requires base { of.0 < length types.now.forms }
    requires steps { AreStepsIn (length types.now.forms) of.1.now }
    ensures { result ≡ first_of decl_constraints (state_of scopes.now types.now) (Name (record { class = class; name = name.now; of = formed (type_at types.now of.entry.0) (steps_seen types.now of.entry.1.now); linkage = linked linkage })) }
{
    if has_inner_class(scopes, class, makes_function(types, of.0, of.1)) {
        return Some(3);
    }
    if is_declared_again(scopes, linkage, name) {
        return Some(5);
    }
    if is_declared_otherwise(scopes, types, linkage, name, of) {
        return Some(6);
    }
    None
}
