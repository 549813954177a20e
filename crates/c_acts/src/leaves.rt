//! Expressions without parts.
ghost use Rattle.std.specs.Prelude.{◌≡◌, [], ◌∷◌, ◌≤◌, slice_get, IfOk, IfErr};
ghost use Rattle.c_runs.specs.Expressions as acts;
ghost use Rattle.c_runs.specs.Expressions.{row};
ghost use Rattle.c_runs.specs.Places as places;
ghost use Rattle.c_worlds.specs.declared.stop.Stop.TheVariants.{Memory};
ghost use Rattle.c_worlds.specs.declared.world.World.{World as AnyWorld};
ghost use Rattle.c_worlds.specs.BuiltIns.{numbered_built_ins};
ghost use Rattle.c_runs.specs.Calls as calls;
ghost use Rattle.c_worlds.specs.Programs.{Calls, HasNames, known, setting_of, unit_of};
ghost use Rattle.c_worlds.specs.Shown.{Comes};
ghost use Rattle.c_meaning.specs.CoreTrees.{what_of, type_of, line_of};

use c_meaning::{BuiltIn, CoreExpr, CoreKind};
use c_worlds::{Names, Program, Stop, World, size};
use lcc_base::Cause;
use objects::{ObjectName, Value};

/// What an expression of this kind, type and line gives that has no parts: the pointer to an object, a function, or a
/// number. `Undefined` with `Outside` comes where the program has no such object, or the kind wants parts; `Memory` where a
/// text has 2^32 bytes.
pub fn leaf(program: &Program, world: &World, e: &CoreExpr) -> Result<Option<Value>, Stop>
    requires { HasNames program.now }
    ensures { (calls : Calls) → Comes (λ k w. row (setting_of program.now calls) (what_of e.now) (known program.now (type_of e.now)) (line_of e.now) [] k w) world.now world.now result }
{
    match &e.what {
        CoreKind::Local { place, .. } => found(world.locals.get(*place), e.line),
        CoreKind::Number(n) => Ok(Some(Value::Number(*n))),
        CoreKind::Object(n) => found(object_place(program, *n), e.line),
        CoreKind::Text(n) => found(text_place(program, *n)?, e.line),
        CoreKind::Function(n) => Ok(Some(Value::Function(*n))),
        CoreKind::BuiltIn(b) => Ok(Some(Value::Function(built_in_number(program, *b)))),
        _ => Err(Stop::Undefined(Cause::Outside, e.line)),
    }
}

/// A place that was looked for; `Outside` at the line where there is none.
fn found(place: Option<Value>, line: u32) -> Result<Option<Value>, Stop>
    ensures { (w : AnyWorld) → Comes (λ k x. acts.place place line k x) w w result }
{
    match place {
        Some(_) => Ok(place),
        None => Err(Stop::Undefined(Cause::Outside, line)),
    }
}

/// The start of an object that was made before the program started, as the one at its place.
fn static_place(place: u32, size: u32) -> Value
    ensures { result ≡ places.static_place place size }
{
    Value::Pointer {
        object: ObjectName {
            place,
            made: place as u64,
            size,
        },
        offset: 0,
    }
}

/// The place of an object of the unit, if it has so many.
fn object_place(program: &Program, n: u32) -> Option<Value>
    ensures { result ≡ places.place_of_object (unit_of program.now) n (slice_get (unit_of program.now).objects n) }
{
    match program.core.objects().get(n as usize) {
        Some(object) => Some(static_place(n, size(program.core.types(), object.of))),
        None => None,
    }
}

/// The place of a text of the unit, if it has so many. `Memory` where it has 2^32 bytes with its null.
fn text_place(program: &Program, n: u32) -> Result<Option<Value>, Stop>
    ensures ok { IfOk result (λ place. place ≡ places.place_of_text (unit_of program.now) n (slice_get (unit_of program.now).texts n)) }
    ensures err { IfErr result (λ stop. stop ≡ Memory) }
{
    match program.core.texts().get(n as usize) {
        Some(text) if text.len() >= u32::MAX as usize => Err(Stop::Memory),
        Some(text) => {
            let place = program.core.objects().len() as u32 + n;
            Ok(Some(static_place(place, text.len() as u32 + 1)))
        }
        None => Ok(None),
    }
}

/// The number of a built-in function.
fn built_in_number(program: &Program, b: BuiltIn) -> u32
    requires { HasNames program.now }
    ensures { result ≡ calls.built_in_number (unit_of program.now) b }
{
    // The texts are read, so that what the unit keeps is known here.
    let _texts = program.core.texts();
    program.names.first + place_among(program.names, b)
}

/// How many built-in functions that the unit doesn't define stand before this one, or in all, if it defines this one.
fn place_among(names: Names, b: BuiltIn) -> u32
    ensures is { result ≡ calls.place_among b (numbered_built_ins names) }
    ensures few { result ≤ 2 }
{
    let putchar = if names.putchar { 0 } else { 1 };
    let getchar = if names.getchar { 0 } else { 1 };
    let exit = if names.exit { 0 } else { 1 };
    match b {
        BuiltIn::Putchar if names.putchar => getchar + exit,
        BuiltIn::Putchar => 0,
        BuiltIn::Getchar if names.getchar => putchar + exit,
        BuiltIn::Getchar => putchar,
        BuiltIn::Exit => putchar + getchar,
    }
}
