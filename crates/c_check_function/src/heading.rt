//! The declarator of a function's definition, before its type is formed, and the constraints on it (C89 3.7.1).
ghost use Rattle.std.specs.Prelude.{◌≡◌, ◌<◌, false, IfOk, length};
ghost use Rattle.c_types.specs.Table.{tags, type_at};
ghost use Rattle.c_meaning.specs.NodeConstraints.{first_of};
ghost use Rattle.c_meaning.specs.TypeConstraints.{is_bad_result, some_step};
ghost use Rattle.c_check_expr.specs.Known.{AreSymbolsIn, state_of};
ghost use Rattle.c_check_expr.specs.PartsSeen.{AreStepsIn, steps_seen};
ghost use Rattle.c_units.specs.Definitions.{definition_constraints, is_open_result as is_open};
ghost use Rattle.c_check_function.specs.Headings.{IsHeadingIn, heading_seen, own_broken as own_step_broken, steps_broken as shape_broken};

use crate::name_lists::are_different;
use crate::own_step::{has_more, is_definition, names, takes_open};
use c_ast::Storage;
use c_check_decl::pieces::{
    Linkage, is_declared_again, is_declared_otherwise, is_defined, is_typedef,
};
use c_check_expr::pieces::{Step, has_bad_element, has_bad_result, has_bad_size, has_name_list};
use c_symbols::Scopes;
use c_types::{TypeId, TypeTable};
use c_values::kinds;
use c_values::values::plain;
use lcc_base::{Bytes, Items, Memory};
use std::alloc::Global;

/// The declarator of a function's definition, over the type of its specifiers.
#[derive(Drop)]
pub(crate) struct Heading {
    /// The storage class of its specifiers.
    pub(crate) class: Option<Storage>,
    pub(crate) name: Bytes,
    pub(crate) linkage: Linkage,
    /// The type of its specifiers.
    pub(crate) base: TypeId,
    /// What makes its type of that.
    pub(crate) steps: Items<Step>,
}

/// The first constraint that it breaks.
pub(crate) fn broken(
    alloc: Global,
    scopes: &Scopes,
    types: &TypeTable,
    h: &Heading,
) -> Result<Option<u8>, Memory>
    requires symbols { AreSymbolsIn (length types.now.forms) scopes.now.symbols }
    requires heading { IsHeadingIn (length types.now.forms) h.now }
    ensures { IfOk result (λ n. n ≡ first_of definition_constraints (state_of scopes.now types.now) (heading_seen types.now h.now)) }
{
    let name = h.name.as_slice();
    let steps = h.steps.as_slice();
    if is_typedef(h.class) {
        return Ok(Some(3));
    }
    if is_declared_again(scopes, h.linkage, name) || !are_different(alloc, names(steps))? {
        return Ok(Some(5));
    }
    if is_declared_otherwise(scopes, types, h.linkage, name, (h.base, steps)) {
        return Ok(Some(6));
    }
    if is_defined(scopes, scopes.linked(name)) {
        return Ok(Some(7));
    }
    Ok(steps_broken(types, h.base, steps))
}

/// The first constraint on its type that it breaks.
fn steps_broken(types: &TypeTable, base: TypeId, steps: &[Step]) -> Option<u8>
    requires base { base < length types.now.forms }
    requires steps { AreStepsIn (length types.now.forms) steps.now }
    ensures { result ≡ shape_broken (tags types.now) (type_at types.now base) (steps_seen types.now steps.now) }
{
    if has_bad_size(types, steps) {
        Some(13)
    } else if has_bad_element(types, base, steps) {
        Some(14)
    } else if has_bad_result(types, base, steps) {
        Some(15)
    } else {
        own_broken(types, base, steps)
    }
}

/// The first constraint on the function that it breaks, where no function returns a function or an array.
fn own_broken(types: &TypeTable, base: TypeId, steps: &[Step]) -> Option<u8>
    requires base { base < length types.now.forms }
    requires steps { AreStepsIn (length types.now.forms) steps.now }
    requires results { some_step is_bad_result (type_at types.now base) (steps_seen types.now steps.now) ≡ false }
    ensures { result ≡ own_step_broken (tags types.now) (type_at types.now base) (steps_seen types.now steps.now) }
{
    let Some((own, before)) = steps.split_last() else {
        return Some(18);
    };
    if !is_definition(own) {
        Some(18)
    } else if has_name_list(before) {
        Some(19)
    } else if takes_open(types, own) || (before.is_empty() && is_open_result(types, base)) {
        Some(20)
    } else if has_more(own) {
        Some(21)
    } else {
        None
    }
}

/// Whether a function can't give a value of the type: it is incomplete, and isn't void.
fn is_open_result(types: &TypeTable, of: TypeId) -> bool
    requires { of < length types.now.forms }
    ensures { result ≡ is_open (tags types.now) (type_at types.now of) }
{
    !kinds::is_void(types, of) && !kinds::has_size(types, plain(of))
}
