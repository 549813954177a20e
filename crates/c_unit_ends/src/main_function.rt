//! Whether `main` is defined as it may be (C89 2.1.2.2).
ghost use Rattle.std.specs.Prelude.{◌≡◌, ◌<◌, ◌&&◌, length, map};
ghost use Rattle.c_types.specs.CType.{Char, Int, basic, unqualified};
ghost use Rattle.c_types.specs.Compatible.{compatible};
ghost use Rattle.c_types.specs.Table.{AreBelow, AreSomeBelow, parameters_in, type_at, types as types_of, types_in};
ghost use Rattle.c_meaning.specs.Rows.{parameters_type, result_type};
ghost use Rattle.c_meaning.specs.Types.{pointer_to};
ghost use Rattle.c_meaning.specs.Units.{are_of_main as may_be_of_main, function_seen, is_main as may_be_main};
ghost use Rattle.c_units.specs.Ends.{has_main as is_there_main};
ghost use Rattle.c_unit_ends.specs.MainFunction.{are_listed_of_main};
ghost use Rattle.c_unit_parts.specs.PartsIn.{AreFunctionsIn, function_in};

use c_meaning::CoreFunction;
use c_types::{TypeId, TypeTable};
use c_unit_parts::DefinedFunction;
use c_values::basic_places::{CHAR, INT};
use c_values::kinds;
use lcc_base::Items;

/// Whether one of the functions is `main`, as it may be.
pub(crate) fn has_main(types: &TypeTable, functions: &[DefinedFunction]) -> bool
    requires { AreFunctionsIn (length types.now.forms) functions.now }
    ensures { result ≡ is_there_main (map (function_in types.now) functions.now) }
{
    for function in functions {
        if is_main(types, &function.function) {
            return true;
        }
    }
    false
}

/// Whether the function is `main`, as it may be.
fn is_main(types: &TypeTable, f: &CoreFunction) -> bool
    requires { f.now.of < length types.now.forms }
    ensures { result ≡ may_be_main (function_seen (types_of types.now) f.now) }
{
    f.name.as_slice() == b"main".as_slice() && is_type_of_main(types, f.of)
}

/// Whether `main` may have the type.
fn is_type_of_main(types: &TypeTable, of: TypeId) -> bool
    requires { of < length types.now.forms }
    ensures { result ≡ (compatible (result_type (type_at types.now of)) (basic Int) && may_be_of_main (parameters_type (type_at types.now of))) }
{
    let (base, _) = types.unqualified(of);
    match types.function_of(base) {
        Some((result, parameters, more)) => {
            types.compatible(result, types.basic_type(INT)) && are_of_main(types, parameters, more)
        }
        None => false,
    }
}

/// Whether `main` may have the parameters.
fn are_of_main(types: &TypeTable, parameters: &Option<Items<TypeId>>, more: bool) -> bool
    requires { AreSomeBelow (length types.now.forms) parameters.now }
    ensures { result ≡ may_be_of_main (parameters_in (types_of types.now) parameters.now more) }
{
    match parameters {
        None => true,
        Some(_) if more => false,
        Some(ids) => are_listed(types, ids.as_slice()),
    }
}

/// Whether they are none, or an int and a pointer to pointers to char.
fn are_listed(types: &TypeTable, list: &[TypeId]) -> bool
    requires { AreBelow (length types.now.forms) list.now }
    ensures { result ≡ are_listed_of_main (types_in (types_of types.now) list.now) }
{
    match list {
        [] => true,
        [a, b] => {
            types.compatible(kinds::unqualified_type(types, *a), types.basic_type(INT))
                && points_to_pointers(types, *b)
        }
        _ => false,
    }
}

/// Whether the type, without qualifiers, is a pointer to pointers to char.
fn points_to_pointers(types: &TypeTable, of: TypeId) -> bool
    requires { of < length types.now.forms }
    ensures { result ≡ compatible (unqualified (type_at types.now of)) (pointer_to (pointer_to (basic Char))) }
{
    let (base, _) = types.unqualified(of);
    match types.pointer_to(base) {
        Some(to) => points_to_char(types, to),
        None => false,
    }
}

/// Whether the type is a pointer to char.
fn points_to_char(types: &TypeTable, of: TypeId) -> bool
    requires { of < length types.now.forms }
    ensures { result ≡ compatible (type_at types.now of) (pointer_to (basic Char)) }
{
    let (base, qualifiers) = types.unqualified(of);
    match types.pointer_to(base) {
        Some(to) => qualifiers.number() == 0 && types.compatible(to, types.basic_type(CHAR)),
        None => false,
    }
}
