//! A function is entered: its parameters hold the arguments, and its other locals unknown bits.
ghost use Rattle.std.specs.Prelude.{◌≡◌, ◌++◌, ◌∷◌, [], IfErr, OnOk};
ghost use Rattle.objects.specs.declared.value.Value.TheVariants as Value;
ghost use Rattle.c_entries.specs.Entered.{Enters, MakesLocals, MakesParameter, MakesParameters};
ghost use Rattle.c_worlds.specs.declared.stop.Stop.TheVariants as Stop;
ghost use Rattle.c_worlds.specs.OpenLocals.{all_locals};

use crate::argument::{Argument, argument_at};
use c_meaning::CoreFunction;
use c_types::TypeId;
use c_worlds::{Program, Stop, World, at_line, is_const, is_record, scalar, size};
use lcc_base::Cause;
use objects::{ObjectName, Value, convert};

/// Enters the function of this number. The arguments are converted for narrow parameters: `Undefined` with
/// `PointerNumber` comes at an argument's line, and with `Outside` where there are too few.
pub fn enter(
    program: &Program,
    world: &mut World,
    f: &CoreFunction,
    number: u32,
    arguments: &[Argument],
) -> Result<(), Stop>
    ensures enters { Enters program.now f.now number arguments.now world.old world.new result }
    ensures output { world.new.output ≡ world.old.output }
    ensures below { OnOk result (world.new.locals.below ≡ all_locals world.old.locals) }
{
    world.locals.open();
    let locals = f.locals.as_slice();
    let count = locals.len().min(f.parameters as usize);
    make_parameters(program, world, &locals[..count], arguments)?;
    make_locals(program, world, &locals[count..])
}

/// Makes the parameters of these types, from the arguments.
fn make_parameters(
    program: &Program,
    world: &mut World,
    parameters: &[TypeId],
    arguments: &[Argument],
) -> Result<(), Stop>
    ensures makes { MakesParameters program.now parameters.now arguments.now world.old world.new result }
    ensures output { world.new.output ≡ world.old.output }
    ensures below { world.new.locals.below ≡ world.old.locals.below }
{
    for place in 0..parameters.len() {
        match argument_at(arguments, place) {
            Some(argument) => make_parameter(program, world, parameters[place], argument)?,
            None => return Err(Stop::Undefined(Cause::Outside, 0)),
        }
    }
    Ok(())
}

/// Makes a parameter of a type: the copy of a structure that was passed, or an object of the converted argument.
fn make_parameter(
    program: &Program,
    world: &mut World,
    of: TypeId,
    argument: Argument,
) -> Result<(), Stop>
    ensures makes { MakesParameter program.now of argument world.old world.new result }
    ensures output { world.new.output ≡ world.old.output }
    ensures below { world.new.locals.below ≡ world.old.locals.below }
{
    let types = program.core.types();
    let constant = is_const(types, of);
    if is_record(types, of) {
        world.storage.flag(argument.value, constant);
        world.locals.push(argument.value)?;
        Ok(())
    } else {
        let scalar = scalar(types, of);
        let value = at_line(argument.line, convert(scalar, argument.value))?;
        let name = world
            .storage
            .make_scalar(constant, program.order, scalar.width, value)?;
        push_object(world, name)
    }
}

/// A further object of the running call.
fn push_object(world: &mut World, name: ObjectName) -> Result<(), Stop>
    ensures here { OnOk result (world.new.locals.here ≡ world.old.locals.here ++ Value.Pointer name 0 ∷ []) }
    ensures below { world.new.locals.below ≡ world.old.locals.below }
    ensures err { IfErr result (λ e. e ≡ Stop.Memory) }
    ensures storage { world.new.storage ≡ world.old.storage }
    ensures input { world.new.input.now ≡ world.old.input.now }
    ensures output { world.new.output ≡ world.old.output }
{
    let place = Value::Pointer {
        object: name,
        offset: 0,
    };
    world.locals.push(place)?;
    Ok(())
}

/// Makes the running call's other objects, of these types.
fn make_locals(program: &Program, world: &mut World, locals: &[TypeId]) -> Result<(), Stop>
    ensures makes { OnOk result (MakesLocals program.now locals.now world.old world.new) }
    ensures output { world.new.output ≡ world.old.output }
    ensures below { world.new.locals.below ≡ world.old.locals.below }
    ensures err { IfErr result (λ e. e ≡ Stop.Memory) }
{
    for place in 0..locals.len() {
        make_local(program, world, locals[place])?;
    }
    Ok(())
}

/// Makes an object of the running call, of unknown bits.
fn make_local(program: &Program, world: &mut World, of: TypeId) -> Result<(), Stop>
    ensures makes { OnOk result (MakesLocals program.now (of ∷ []) world.old world.new) }
    ensures output { world.new.output ≡ world.old.output }
    ensures below { world.new.locals.below ≡ world.old.locals.below }
    ensures err { IfErr result (λ e. e ≡ Stop.Memory) }
{
    let types = program.core.types();
    let constant = is_const(types, of);
    let size = size(types, of);
    let name = world.storage.make_unknown(constant, size)?;
    push_object(world, name)
}
