//! Whether a type fits a built-in function's (C89 3.1.2.6).
ghost use Rattle.std.specs.Prelude.{◌≡◌, ◌<◌, List, false, length, Some};
ghost use Rattle.c_types.specs.CType.{And, CType, Int, Listed, NoType, basic};
ghost use Rattle.c_types.specs.Compatible.{all_compatible, compatible, parameters_compatible};
ghost use Rattle.c_types.specs.Table.{AreBelow, AreSomeBelow, parameters_in, type_at, types as types_of, types_in};
ghost use Rattle.c_units.specs.Ends.{built_in_parameters, built_in_result, fits_built_in, function_type, gives_otherwise};

use c_meaning::BuiltIn;
use c_types::{TypeId, TypeTable};
use c_values::basic_places::{INT, VOID};
use c_values::kinds;
use lcc_base::Items;

/// The place of the result of a built-in function.
fn result_of_built_in(types: &TypeTable, b: BuiltIn) -> TypeId
    ensures is { type_at types.now result ≡ built_in_result b }
    ensures within { result < length types.now.forms }
{
    match b {
        BuiltIn::Putchar | BuiltIn::Getchar => types.basic_type(INT),
        BuiltIn::Exit => types.basic_type(VOID),
    }
}

/// Whether the one type is an int alone, but for qualifiers.
fn are_int_alone(types: &TypeTable, list: &[TypeId]) -> bool
    requires { AreBelow (length types.now.forms) list.now }
    ensures { result ≡ all_compatible (types_in (types_of types.now) list.now) (And (basic Int) NoType) }
{
    match list {
        [a] => types.compatible(kinds::unqualified_type(types, *a), types.basic_type(INT)),
        _ => false,
    }
}

/// Whether there are none.
fn are_none(list: &[TypeId]) -> bool
    ensures { (known : List CType) → result ≡ all_compatible (types_in known list.now) NoType }
{
    match list {
        [] => true,
        [_, ..] => false,
    }
}

/// Whether the parameters fit those of a built-in function.
fn fit_parameters(
    types: &TypeTable,
    b: BuiltIn,
    parameters: &Option<Items<TypeId>>,
    more: bool,
) -> bool
    requires { AreSomeBelow (length types.now.forms) parameters.now }
    ensures { result ≡ parameters_compatible (parameters_in (types_of types.now) parameters.now more) (Listed (built_in_parameters b) false) }
{
    match parameters {
        None => true,
        Some(_) if more => false,
        Some(ids) => match b {
            BuiltIn::Getchar => are_none(ids.as_slice()),
            BuiltIn::Putchar | BuiltIn::Exit => are_int_alone(types, ids.as_slice()),
        },
    }
}

/// Whether a built-in function may be declared with the type.
pub(crate) fn fits(types: &TypeTable, b: BuiltIn, of: TypeId) -> bool
    requires { of < length types.now.forms }
    ensures { result ≡ fits_built_in (Some b) (type_at types.now of) }
{
    fits_with(types, b, of, result_of_built_in(types, b))
        || fits_with(types, b, of, types.basic_type(INT))
}

/// Whether the type is compatible with that of a built-in function that has this result.
fn fits_with(types: &TypeTable, b: BuiltIn, of: TypeId, own: TypeId) -> bool
    requires of { of < length types.now.forms }
    requires own { own < length types.now.forms }
    ensures { result ≡ compatible (type_at types.now of) (function_type (type_at types.now own) (built_in_parameters b)) }
{
    let (base, qualifiers) = types.unqualified(of);
    match types.function_of(base) {
        Some((result, parameters, more)) => {
            qualifiers.number() == 0
                && types.compatible(result, own)
                && fit_parameters(types, b, parameters, more)
        }
        None => false,
    }
}

/// Whether the type is a function with another result than a built-in function may have.
pub(crate) fn gives_other(types: &TypeTable, b: BuiltIn, of: TypeId) -> bool
    requires { of < length types.now.forms }
    ensures { result ≡ gives_otherwise (Some b) (type_at types.now of) }
{
    let (base, _) = types.unqualified(of);
    match types.function_of(base) {
        Some((result, _, _)) => {
            !(types.compatible(result, result_of_built_in(types, b))
                || types.compatible(result, types.basic_type(INT)))
        }
        None => false,
    }
}
