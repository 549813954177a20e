//! Whether the parameters that a declarator lists are compatible with those of a type of the table (C89 3.5.4.3).
ghost use Rattle.std.specs.Prelude.{◌≡◌, ◌<◌, length};
ghost use Rattle.c_types.specs.CType.{Listed, Open, unqualified};
ghost use Rattle.c_types.specs.Compatible.{all_compatible as are_all, all_kept, is_kept as does_stay, parameters_compatible};
ghost use Rattle.c_types.specs.Table.{AreBelow, AreSomeBelow, parameters_in, type_at, types as table_types, types_in};
ghost use Rattle.c_meaning.specs.TypeRows.{types_of};
ghost use Rattle.c_check_expr.specs.PartsSeen.{AreParametersIn, parameters_seen};

use c_check_expr::pieces::NamedParameter;
use c_types::{TypeForm, TypeId, TypeTable};
use c_values::kinds;
use c_values::values::plain;
use lcc_base::Items;

/// Whether the default argument promotions keep the type.
fn is_kept(types: &TypeTable, id: TypeId) -> bool
    requires { id < length types.now.forms }
    ensures { result ≡ does_stay (unqualified (type_at types.now id)) }
{
    let (base, _) = types.unqualified(id);
    !matches!(
        types.form(base),
        TypeForm::Char
            | TypeForm::SignedChar
            | TypeForm::UnsignedChar
            | TypeForm::Short
            | TypeForm::UnsignedShort
    )
}

/// Whether the promotions keep the type of each parameter.
fn are_named_kept(types: &TypeTable, parameters: &[NamedParameter]) -> bool
    requires { AreParametersIn (length types.now.forms) parameters.now }
    ensures { result ≡ all_kept (types_of (parameters_seen types.now parameters.now)) }
{
    for parameter in parameters {
        if !is_kept(types, parameter.of) {
            return false;
        }
    }
    true
}

/// Whether the promotions keep each of the types.
fn are_kept(types: &TypeTable, ids: &[TypeId]) -> bool
    requires { AreBelow (length types.now.forms) ids.now }
    ensures { result ≡ all_kept (types_in (table_types types.now) ids.now) }
{
    for id in ids {
        if !is_kept(types, *id) {
            return false;
        }
    }
    true
}

/// Whether the parameters are as many as the types, and compatible with them in order.
fn are_all_compatible(types: &TypeTable, parameters: &[NamedParameter], ids: &[TypeId]) -> bool
    requires parameters { AreParametersIn (length types.now.forms) parameters.now }
    requires ids { AreBelow (length types.now.forms) ids.now }
    ensures { result ≡ are_all (types_of (parameters_seen types.now parameters.now)) (types_in (table_types types.now) ids.now) }
{
    if parameters.len() != ids.len() {
        return false;
    }
    for i in 0..ids.len() {
        if !kinds::are_types_alike(types, plain(parameters[i].of), plain(ids[i])) {
            return false;
        }
    }
    true
}

/// Whether listed parameters, perhaps with `...` behind them, are compatible with a function's.
pub(crate) fn are_listed_compatible(
    types: &TypeTable,
    parameters: &[NamedParameter],
    more: bool,
    others: &Option<Items<TypeId>>,
    and_more: bool,
) -> bool
    requires parameters { AreParametersIn (length types.now.forms) parameters.now }
    requires others { AreSomeBelow (length types.now.forms) others.now }
    ensures { result ≡ parameters_compatible (Listed (types_of (parameters_seen types.now parameters.now)) more) (parameters_in (table_types types.now) others.now and_more) }
{
    match others {
        Some(ids) => more == and_more && are_all_compatible(types, parameters, ids.as_slice()),
        None => !more && are_named_kept(types, parameters),
    }
}

/// Whether open parameters are compatible with a function's.
pub(crate) fn are_open_compatible(
    types: &TypeTable,
    others: &Option<Items<TypeId>>,
    and_more: bool,
) -> bool
    requires { AreSomeBelow (length types.now.forms) others.now }
    ensures { result ≡ parameters_compatible Open (parameters_in (table_types types.now) others.now and_more) }
{
    match others {
        Some(ids) => !and_more && are_kept(types, ids.as_slice()),
        None => true,
    }
}
