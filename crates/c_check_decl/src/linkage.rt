//! The linkage that a declaration gives a name (C89 3.1.2.2).
ghost use Rattle.std.specs.Prelude.{◌≡◌, if◌then◌else◌};
ghost use Rattle.c_types.specs.Table.{Table};
ghost use Rattle.c_meaning.specs.Linkage.{Alone as NoLinkage, Internal as InternalLinkage, class_linkage as linkage_of_class, earlier as earlier_linkage, is_linked as has_linkage, is_outside as outside, linkage as linkage_given, linkage_at as linkage_of, linkage_without_class as classless};
ghost use Rattle.c_check_expr.specs.Known.{state_of};
ghost use Rattle.c_check_decl.specs.Named.{linked};

use c_ast::Storage;
use c_symbols::{Scopes, Storage as Class, SymbolId};

/// The linkage of a name (C89 3.1.2.2).
#[derive(Clone, Copy, Debug, PartialEq, Eq)]
pub enum Linkage {
    /// It has none.
    Alone,
    /// Declarations of it within the unit mean the same.
    Internal,
    /// Declarations of it in all units mean the same.
    External,
}

/// Whether a name with this linkage has any.
pub fn is_linked(linkage: Linkage) -> bool
    ensures { result ≡ has_linkage (linked linkage) }
{
    linkage != Linkage::Alone
}

/// The linkage of what was declared with this class.
pub(crate) fn class_linkage(class: Class) -> Linkage
    ensures { linked result ≡ linkage_of_class class }
{
    match class {
        Class::Extern => Linkage::External,
        Class::Static => Linkage::Internal,
        _ => Linkage::Alone,
    }
}

/// The linkage of a symbol of some scope: its value tells the symbol of all declarations of its name.
pub(crate) fn linkage_at(scopes: &Scopes, id: Option<SymbolId>) -> Linkage
    ensures { (t : Table) → linked result ≡ linkage_of (state_of scopes.now t) id }
{
    match id {
        Some(id) if id < scopes.count() => {
            let symbol = scopes.symbol(id);
            match symbol.value {
                Some(_) => class_linkage(symbol.class),
                None => Linkage::Alone,
            }
        }
        _ => Linkage::Alone,
    }
}

/// The linkage of the declaration in force, and external where it has none or there is none.
fn earlier(scopes: &Scopes, name: &[u8]) -> Linkage
    ensures { (t : Table) → linked result ≡ earlier_linkage (state_of scopes.now t) name.now }
{
    match linkage_at(scopes, scopes.find(name)) {
        Linkage::Alone => Linkage::External,
        linkage => linkage,
    }
}

/// Whether the innermost scope is that of the file.
pub fn is_outside(scopes: &Scopes) -> bool
    ensures { (t : Table) → result ≡ outside (state_of scopes.now t) }
{
    scopes.level() == 0
}

/// The linkage that a declaration without a storage class gives.
fn linkage_without_class(scopes: &Scopes, name: &[u8], function: bool) -> Linkage
    ensures { (t : Table) → linked result ≡ classless (state_of scopes.now t) name.now function }
{
    if function {
        earlier(scopes, name)
    } else if is_outside(scopes) {
        Linkage::External
    } else {
        Linkage::Alone
    }
}

/// The linkage that a declaration with `static` gives.
fn static_linkage(scopes: &Scopes) -> Linkage
    ensures { (t : Table) → linked result ≡ (if outside (state_of scopes.now t) then InternalLinkage else NoLinkage) }
{
    if is_outside(scopes) {
        Linkage::Internal
    } else {
        Linkage::Alone
    }
}

/// The linkage that a declaration in the innermost scope gives a name, by its storage class and by whether it
/// is a function's (C89 3.1.2.2).
pub fn given_linkage(
    scopes: &Scopes,
    class: Option<Storage>,
    name: &[u8],
    function: bool,
) -> Linkage
    ensures { (t : Table) → linked result ≡ linkage_given (state_of scopes.now t) class name.now function }
{
    match class {
        Some(Storage::Extern) => earlier(scopes, name),
        Some(Storage::Static) => static_linkage(scopes),
        Some(_) => Linkage::Alone,
        None => linkage_without_class(scopes, name, function),
    }
}
