//! Whether a function fits a call (C89 3.3.2.2): its result, and the types of its parameters and of the arguments.
ghost use Rattle.std.specs.Prelude.{◌≡◌, ◌<◌, Bool, List, length, map};
ghost use Rattle.objects.specs.declared.value.Value.{Value};
ghost use Rattle.c_types.specs.CType.{Char, CType, basic, unqualified};
ghost use Rattle.c_types.specs.Compatible.{compatible};
ghost use Rattle.c_types.specs.Table.{type_at, type_in, types};
ghost use Rattle.c_meaning.specs.Rows.{parameters_type, result_type};
ghost use Rattle.c_meaning.specs.Types.{pointer_to};
ghost use Rattle.c_meaning.specs.Units.{function_seen};
ghost use Rattle.c_runs.specs.Calls.{arguments_fit, built_in_fits, expected, int, is_open, own_parameters, result_fits};
ghost use Rattle.c_runs.specs.Run.{argv, main_arguments};
ghost use Rattle.c_worlds.specs.Programs.{known};
ghost use Rattle.c_entries.specs.Arguments.{arguments_seen};
ghost use Rattle.c_entries.specs.Fitting.{fits_with};

use crate::argument::{Argument, argument_at};
use c_meaning::{BuiltIn, CoreFunction};
use c_types::{TypeForm, TypeId, TypeTable, compatible_types_are_mutual};
use c_values::kinds::{is_integer, is_void, unqualified_type};
use c_worlds::{Program, known_type};

/// The places of void and int, which they have in each table.
const VOID: TypeId = 0;

const INT: TypeId = 6;

/// Whether a function of the unit fits a call with these arguments whose result has this type.
pub fn function_fits(
    program: &Program,
    f: &CoreFunction,
    of: TypeId,
    arguments: &[Argument],
) -> bool
    ensures { result ≡ fits_with (function_seen (types program.now.core.now.types) f.now) (known program.now of) (arguments_seen program.now arguments.now) }
{
    let types = program.core.types();
    let (own, old) = signature(types, f.of);
    result_fits(types, own, known_type(types, of))
        && arguments_fit(program, old, own_parameters(f), arguments)
}

/// Whether `main` fits its first call, with an int and a pointer to a pointer to char.
pub fn main_fits(program: &Program, f: &CoreFunction) -> bool
    ensures { (place : Value) → result ≡ fits_with (function_seen (types program.now.core.now.types) f.now) int (main_arguments place) }
{
    let types = program.core.types();
    let (own, old) = signature(types, f.of);
    result_fits(types, own, types.basic_type(INT)) && are_of_main(types, old, own_parameters(f))
}

/// Whether parameters of these types fit the arguments of `main`.
fn are_of_main(types: &TypeTable, old: bool, parameters: &[TypeId]) -> bool
    ensures { (place : Value) → result ≡ arguments_fit old (map (type_at types.now) parameters.now) (main_arguments place) }
{
    if parameters.len() != 2 {
        return false;
    }
    argument_fits(types, old, parameters[0], types.basic_type(INT))
        && is_of_texts(types, known_type(types, parameters[1]))
}

/// Whether the type is a pointer to a pointer to char, but for its own qualifiers.
fn is_of_texts(types: &TypeTable, id: TypeId) -> bool
    requires { id < length types.now.forms }
    ensures { (old : Bool) → result ≡ compatible (expected old (type_at types.now id)) argv }
{
    let (base, _) = types.unqualified(id);
    match types.pointer_to(base) {
        Some(to) => is_of_chars(types, to),
        None => false,
    }
}

/// Whether the type is a pointer to char.
fn is_of_chars(types: &TypeTable, id: TypeId) -> bool
    requires { id < length types.now.forms }
    ensures { result ≡ compatible (type_at types.now id) (pointer_to (basic Char)) }
{
    let (base, qualifiers) = types.unqualified(id);
    if qualifiers.number() != 0 {
        return false;
    }
    match types.pointer_to(base) {
        Some(to) => is_char(types, to),
        None => false,
    }
}

/// Whether the type is char.
fn is_char(types: &TypeTable, id: TypeId) -> bool
    requires { id < length types.now.forms }
    ensures { result ≡ compatible (type_at types.now id) (basic Char) }
{
    let (base, qualifiers) = types.unqualified(id);
    if qualifiers.number() != 0 {
        return false;
    }
    matches!(types.form(base), TypeForm::Char)
}

/// Whether a built-in function fits a call with these arguments whose result has this type.
pub fn built_in_fits(program: &Program, b: BuiltIn, of: TypeId, arguments: &[Argument]) -> bool
    ensures { result ≡ built_in_fits b (known program.now of) (arguments_seen program.now arguments.now) }
{
    let types = program.core.types();
    let of = known_type(types, of);
    let int = types.basic_type(INT);
    let fits = result_fits(types, int, of);
    match b {
        BuiltIn::Putchar => fits && arguments_fit(program, false, &[int], arguments),
        BuiltIn::Getchar => fits && arguments_fit(program, false, &[], arguments),
        BuiltIn::Exit => {
            (is_void(types, of) || fits) && arguments_fit(program, false, &[int], arguments)
        }
    }
}

/// The result of a function's type, and whether its parameters are open.
fn signature(types: &TypeTable, of: TypeId) -> (TypeId, bool)
    ensures within { result.0 < length types.now.forms }
    ensures gives { type_at types.now result.0 ≡ result_type (type_at types.now of) }
    ensures open { result.1 ≡ is_open (parameters_type (type_at types.now of)) }
{
    let (base, _) = types.unqualified(known_type(types, of));
    match types.function_of(base) {
        Some((result, parameters, _)) => (result, parameters.is_none()),
        None => (types.basic_type(VOID), true),
    }
}

/// The types of a function's parameters.
fn own_parameters(f: &CoreFunction) -> &[TypeId]
    ensures { (ts : List CType) → map (type_in ts) result.now ≡ own_parameters (function_seen ts f.now) }
{
    let locals = f.locals.as_slice();
    let count = locals.len().min(f.parameters as usize);
    &locals[..count]
}

/// Whether a function's own result fits the called one.
fn result_fits(types: &TypeTable, own: TypeId, called: TypeId) -> bool
    requires own { own < length types.now.forms }
    requires called { called < length types.now.forms }
    ensures { result ≡ result_fits (type_at types.now own) (type_at types.now called) }
{
    are_compatible(types, unqualified_type(types, own), called)
}

/// Whether arguments fit parameters of these types.
fn arguments_fit(
    program: &Program,
    old: bool,
    parameters: &[TypeId],
    arguments: &[Argument],
) -> bool
    ensures { result ≡ arguments_fit old (map (known program.now) parameters.now) (arguments_seen program.now arguments.now) }
{
    let types = program.core.types();
    for place in 0..parameters.len() {
        match argument_at(arguments, place) {
            Some(argument) => {
                if !argument_fits(types, old, parameters[place], argument.of) {
                    return false;
                }
            }
            None => return false,
        }
    }
    parameters.len() == arguments.len()
}

/// Whether an argument of a type fits a parameter.
fn argument_fits(types: &TypeTable, old: bool, parameter: TypeId, of: TypeId) -> bool
    ensures { result ≡ compatible (expected old (type_at types.now parameter)) (unqualified (type_at types.now of)) }
{
    compatible_types_are_mutual();
    if !old && parameter == of {
        return true;
    }
    let expected = expected(types, old, known_type(types, parameter));
    are_compatible(
        types,
        expected,
        unqualified_type(types, known_type(types, of)),
    )
}

/// The type that an argument for a parameter has, but for compatibility.
fn expected(types: &TypeTable, old: bool, parameter: TypeId) -> TypeId
    requires { parameter < length types.now.forms }
    ensures within { result < length types.now.forms }
    ensures means { type_at types.now result ≡ expected old (type_at types.now parameter) }
{
    if old && is_integer(types, parameter) {
        types.basic_type(types.promote(parameter))
    } else {
        unqualified_type(types, parameter)
    }
}

/// Whether two types are compatible, as a type is with itself.
fn are_compatible(types: &TypeTable, a: TypeId, b: TypeId) -> bool
    requires a { a < length types.now.forms }
    requires b { b < length types.now.forms }
    ensures { result ≡ compatible (type_at types.now a) (type_at types.now b) }
{
    compatible_types_are_mutual();
    a == b || types.compatible(a, b)
}
