//! What is called.
ghost use Rattle.std.specs.Prelude.{◌≡◌, None, slice_get};
ghost use Rattle.objects.specs.declared.value.Value.TheVariants as Value;
ghost use Rattle.c_runs.specs.Calls.{function_at};
ghost use Rattle.c_entries.specs.Callees.{Calls};
ghost use Rattle.c_worlds.specs.BuiltIns.{numbered_built_ins};
ghost use Rattle.c_worlds.specs.Programs.{HasNames, unit_of};

use c_meaning::{BuiltIn, CoreFunction};
use c_worlds::{Names, Program};
use objects::Value;

/// What a value calls.
#[derive(Clone, Copy)]
pub enum Callee<'a> {
    /// A function of the unit, and its number.
    Function(&'a CoreFunction, u32),
    /// A built-in function.
    BuiltIn(BuiltIn),
    /// Nothing: the call is undefined.
    Nothing,
}

/// What a value calls.
pub fn callee_of<'a>(program: &Program<'a>, value: Value) -> Callee<'a>
    requires { HasNames program.now }
    ensures { Calls program.now value result }
{
    match value {
        Value::Function(number) => numbered(program, number),
        _ => Callee::Nothing,
    }
}

/// The function of a number.
fn numbered<'a>(program: &Program<'a>, number: u32) -> Callee<'a>
    requires { HasNames program.now }
    ensures { Calls program.now (Value.Function number) result }
{
    match program.core.functions().get(number as usize) {
        Some(f) => Callee::Function(f, number),
        None => built_in(program, number),
    }
}

/// The built-in function of a number that no function of the unit has.
fn built_in<'a>(program: &Program<'a>, number: u32) -> Callee<'a>
    requires names { HasNames program.now }
    requires other { function_at (unit_of program.now) number ≡ None }
    ensures { Calls program.now (Value.Function number) result }
{
    let names = program.names;
    if number < names.first {
        return Callee::Nothing;
    }
    match built_in_at(names, number - names.first) {
        Some(b) => Callee::BuiltIn(b),
        None => Callee::Nothing,
    }
}

/// The built-in function at a place among those that the unit doesn't define.
fn built_in_at(names: Names, place: u32) -> Option<BuiltIn>
    ensures { result ≡ slice_get (numbered_built_ins names) place }
{
    match (names.putchar, names.getchar, names.exit, place) {
        (false, _, _, 0) => Some(BuiltIn::Putchar),
        (true, false, _, 0) => Some(BuiltIn::Getchar),
        (false, false, _, 1) => Some(BuiltIn::Getchar),
        (true, true, false, 0) => Some(BuiltIn::Exit),
        (true, false, false, 1) => Some(BuiltIn::Exit),
        (false, true, false, 1) => Some(BuiltIn::Exit),
        (false, false, false, 2) => Some(BuiltIn::Exit),
        _ => None,
    }
}
