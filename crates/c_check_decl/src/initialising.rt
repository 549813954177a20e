//! The initialiser of a declared name, if it has one (C89 3.5.7).
ghost use Rattle.std.specs.Prelude.{◌≡◌, ◌<◌, length};
ghost use Rattle.c_ast.specs.SeenUnits.{boxed_initialiser_seen};
ghost use Rattle.c_ast.specs.UnitViews.{option_of};
ghost use Rattle.c_types.specs.Table.{type_at};
ghost use Rattle.c_meaning.specs.Declarations.{is_static as statics, is_zeroed as does_zero};
ghost use Rattle.c_meaning.specs.Declaring.{initialised as object_initialised, type_here as type_of_name};
ghost use Rattle.c_meaning.specs.State.{place_here};
ghost use Rattle.c_check_expr.specs.Known.{AreSymbolsIn, state_of};
ghost use Rattle.c_check_expr.specs.Walks.{Walks};
ghost use Rattle.c_initialisers.specs.Objects.{object_in};
ghost use Rattle.c_check_decl.specs.Declares.{IsMaybeFilledIn, maybe_filled_in};
ghost use Rattle.c_check_decl.specs.DeclaredIn.{maybe_in};
ghost use Rattle.c_check_decl.specs.Named.{naming_in};

use crate::defining::is_extern;
use crate::linkage::{is_linked, is_outside};
use crate::naming::Naming;
use crate::whole_faults::is_typedef;
use c_ast::{Initialiser, InitialiserForm, Storage};
use c_check_expr::pieces::symbol_type;
use c_initialisers::{Filled, Initialised, initialise};
use c_meaning::declaring_is_a_function;
use c_symbols::Scopes;
use c_types::{TypeId, TypeTable};
use c_values::{CheckFault, kinds};
use std::alloc::Global;

/// Whether the declaration has the storage class `static`.
pub(crate) fn is_static(class: Option<Storage>) -> bool
    ensures { result ≡ statics class }
{
    class == Some(Storage::Static)
}

/// The type that the name has in its scope, which may be a composite with earlier declarations.
pub(crate) fn type_here(scopes: &Scopes, types: &TypeTable, n: &Naming) -> TypeId
    requires symbols { AreSymbolsIn (length types.now.forms) scopes.now.symbols }
    requires of { n.now.of < length types.now.forms }
    ensures means { type_at types.now result ≡ type_of_name (state_of scopes.now types.now) (place_here (state_of scopes.now types.now) n.now.name) (type_at types.now n.now.of) }
    ensures within { result < length types.now.forms }
{
    match scopes.find_here(n.name.as_slice()) {
        Some(id) => symbol_type(scopes, types, id),
        None => n.of,
    }
}

/// The object that a name's initialiser is for: one stands neither on a typedef nor on a block's `extern`.
pub(crate) fn initialised(scopes: &Scopes, types: &TypeTable, n: &Naming) -> Initialised
    ensures is { object_in types.now result ≡ object_initialised (state_of scopes.now types.now) (naming_in types.now n.now) }
    ensures of { result.of ≡ n.now.of }
{
    Initialised {
        of: n.of,
        is_static: is_linked(n.linkage) || is_static(n.class),
        is_barred: is_typedef(n.class) || (is_extern(n.class) && !is_outside(scopes)),
    }
}

/// The initialiser of an object, if it has one.
pub(crate) fn maybe_initialised(
    alloc: Global,
    scopes: &mut Scopes,
    types: &mut TypeTable,
    object: Initialised,
    i: &Option<Box<Initialiser>>,
) -> Result<Option<Filled>, CheckFault>
    requires symbols { AreSymbolsIn (length types.old.forms) scopes.old.symbols }
    requires of { object.of < length types.old.forms }
    ensures { Walks maybe_filled_in IsMaybeFilledIn (maybe_in scopes.old types.old (object_in types.old object) (option_of boxed_initialiser_seen i.now)) scopes.old types.old scopes.new types.new result }
{
    declaring_is_a_function();
    match i {
        Some(i) => {
            let filled = initialise(alloc, scopes, types, object, i)?;
            Ok(Some(filled))
        }
        None => Ok(None),
    }
}

/// Whether a local object becomes zero as a whole before its places are filled: one with a list, unless it
/// is a scalar, and an array with a string.
pub(crate) fn is_zeroed(types: &TypeTable, of: TypeId, i: &Option<Box<Initialiser>>) -> bool
    requires { of < length types.now.forms }
    ensures { result ≡ does_zero (type_at types.now of) (option_of boxed_initialiser_seen i.now) }
{
    match i {
        Some(i) => match &i.form {
            InitialiserForm::List { .. } => !kinds::is_scalar(types, of),
            InitialiserForm::Expr(_) => kinds::element(types, of).is_some(),
        },
        None => false,
    }
}
