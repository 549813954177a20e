//! What the listed names of old-style parameters stand for in the parameters' scope (C89 3.1.2.1, 3.5.4.3).
ghost use Rattle.std.specs.Prelude.{◌≡◌};
ghost use Rattle.c_symbols.specs.Scoping.{symbol_named};
ghost use Rattle.c_types.specs.Table.{Table};
ghost use Rattle.c_check_expr.specs.Known.{state_of};
ghost use Rattle.c_units.specs.Functions.{has_other as other_in, is_object_class as object_class, is_other as other_of};

use c_symbols::{Scopes, Storage};
use lcc_base::Bytes;

/// Whether one of the names is in force in the innermost scope as something else than a parameter.
pub(crate) fn has_other(scopes: &Scopes, names: &[Bytes]) -> bool
    ensures { (t : Table) → result ≡ other_in (state_of scopes.now t) names.now }
{
    for name in names {
        if is_other(scopes, name.as_slice()) {
            return true;
        }
    }
    false
}

/// Whether the name is in force in the innermost scope as something else than a parameter: a function that was
/// called, or an enumerator.
fn is_other(scopes: &Scopes, name: &[u8]) -> bool
    ensures { (t : Table) → result ≡ other_of (state_of scopes.now t) (symbol_named scopes.now.inner name.now) }
{
    match scopes.find_here(name) {
        Some(id) => !is_object_class(scopes.symbol(id).class),
        None => false,
    }
}

/// Whether what was declared with this class is a local object.
fn is_object_class(class: Storage) -> bool
    ensures { result ≡ object_class class }
{
    match class {
        Storage::Auto | Storage::Register => true,
        _ => false,
    }
}
