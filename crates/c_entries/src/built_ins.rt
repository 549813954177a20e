//! The built-in functions (C89 4.9.7.3, 4.9.7.6, 4.10.4.3).
ghost use Rattle.std.specs.Prelude.{◌≡◌, ◌%◌, ◌++◌, ◌∷◌, [], IfErr, IfOk, OnOk};
ghost use Rattle.objects.specs.declared.value.Value.TheVariants as Value;
ghost use Rattle.c_entries.specs.Provides.{IsNext, IsNumber, Provides};
ghost use Rattle.c_worlds.specs.declared.stop.Stop.TheVariants as Stop;

use crate::argument::Argument;
use c_meaning::BuiltIn;
use c_worlds::{Stop, World};
use lcc_base::Cause;
use objects::Value;

/// What a built-in function comes to.
#[derive(Clone, Copy, Debug)]
pub enum Provided {
    /// It gives a value.
    Gave(Value),
    /// It ends the program with a status, a word.
    Exits(u32),
}

/// Calls a built-in function at a line: `putchar` writes the low byte and gives it, `getchar` gives the next byte of the
/// input, or -1, `exit` ends the program. `Undefined` with `PointerNumber` comes where a pointer is to be written or to be
/// the status, and with `Outside` where an argument is wanting.
pub fn provide(
    world: &mut World,
    b: BuiltIn,
    arguments: &[Argument],
    line: u32,
) -> Result<Provided, Stop>
    ensures provides { Provides b arguments.now line world.old world.new result }
    ensures locals { world.new.locals ≡ world.old.locals }
{
    match b {
        BuiltIn::Putchar => {
            let n = number(arguments, line)?;
            let given = put_character(world, n)?;
            Ok(Provided::Gave(given))
        }
        BuiltIn::Getchar => Ok(Provided::Gave(get_character(world))),
        BuiltIn::Exit => {
            let status = number(arguments, line)?;
            Ok(Provided::Exits(status))
        }
    }
}

/// The number that a built-in function is called with. `PointerNumber` comes at the call's line, and `Outside` where no
/// argument is there.
fn number(arguments: &[Argument], line: u32) -> Result<u32, Stop>
    ensures { IsNumber arguments.now line result }
{
    match arguments.first() {
        Some(argument) => match argument.value {
            Value::Number(n) => Ok(n),
            _ => Err(Stop::Undefined(Cause::PointerNumber, line)),
        },
        None => Err(Stop::Undefined(Cause::Outside, line)),
    }
}

/// Writes the low byte of a number, and gives it. After `Memory` nothing has changed.
fn put_character(world: &mut World, n: u32) -> Result<Value, Stop>
    ensures ok { IfOk result (λ v. v ≡ Value.Number (n % 256)) }
    ensures output { OnOk result (world.new.output ≡ world.old.output ++ n % 256 ∷ []) }
    ensures err { IfErr result (λ e. e ≡ Stop.Memory) }
    ensures storage { world.new.storage ≡ world.old.storage }
    ensures locals { world.new.locals ≡ world.old.locals }
    ensures input { world.new.input.now ≡ world.old.input.now }
{
    let byte = (n % 256) as u8;
    world.output.push(byte)?;
    Ok(Value::Number(byte as u32))
}

/// The next byte of the input, which is then behind it, or -1 at its end.
fn get_character(world: &mut World) -> Value
    ensures next { IsNext world.old.input.now result world.new.input.now }
    ensures output { world.new.output ≡ world.old.output }
    ensures storage { world.new.storage ≡ world.old.storage }
    ensures locals { world.new.locals ≡ world.old.locals }
{
    match world.input.split_first() {
        Some((byte, rest)) => {
            let given = Value::Number(*byte as u32);
            world.input = rest;
            given
        }
        None => Value::Number(u32::MAX),
    }
}
