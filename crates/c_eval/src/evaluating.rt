//! A program's run.
ghost use Rattle.std.specs.Prelude.{◌≡◌, IfOk, IfSome, IfNone, List, [], Some, None, slice_get};
ghost use Rattle.lcc_base.specs.Traces.{Event, output_of};
ghost use Rattle.c_types.specs.Table.{types};
ghost use Rattle.c_meaning.specs.Units.{function_seen};
ghost use Rattle.c_runs.specs.Run.{main_arguments, main_call, main_run, main_with, run};
ghost use Rattle.c_worlds.specs.Programs.{HasNames, unit_of};
ghost use Rattle.c_eval.specs.Begins.{Begins};
ghost use Rattle.c_eval.specs.Ends.{final, final_of, how_of};
ghost use Rattle.c_eval.specs.Frames.{frames};
ghost use Rattle.c_eval.specs.Outcomes.{IsOutcome};
ghost use Rattle.c_eval.specs.States.{own};
ghost use Rattle.c_eval.specs.Steps.{state_of};

use crate::expressions::stray;
use crate::focus::Focus;
use crate::how::How;
use crate::machine::Machine;
use crate::stack::Stack;
use crate::turns::Waiting;
use c_entries::{Argument, main_fits};
use c_filling::start;
use c_meaning::{Core, CoreFunction};
use c_worlds::{Program, Stop};
use lcc_base::{Bytes, Cause, Memory, Order};
use objects::Value;
use std::alloc::Global;

/// How a run ended, and what it wrote.
#[derive(Debug, Drop)]
pub enum Outcome {
    /// The program ended with a status.
    Done {
        output: Bytes,
        status: i32,
    },
    /// Its behaviour is undefined, for a cause at a line.
    Undefined {
        output: Bytes,
        cause: Cause,
        line: u32,
    },
    /// The turns were spent.
    OutOfTurns {
        output: Bytes,
    },
}

/// Runs a program with this input and so many turns: a repetition of a loop, a goto and a call each spend one. What
/// objects hold is in this order of bytes. `Memory` comes where an allocation was refused; of a unit that no source has,
/// also where a place or a size takes more than 32 bits.
pub fn evaluate(
    alloc: Global,
    core: &Core,
    order: Order,
    input: &[u8],
    turns: u64,
) -> Result<Outcome, Memory>
    ensures { IfOk result (λ o. IsOutcome o (final_of (run core.now order input.now turns))) }
{
    let program = Program::new(core, order);
    let world = match start(alloc, &program, input) {
        Ok(world) => world,
        Err(Stop::Undefined(cause, line)) => {
            return Ok(answer(How::Undefined(cause, line), Bytes::new(alloc)));
        }
        Err(Stop::Memory) => return Err(Memory),
    };
    let mut machine = Machine {
        alloc,
        stack: Stack::new(alloc),
        world,
        turns,
    };
    let focus = machine.begin_main(&program)?;
    let how = machine.run(alloc, &program, focus)?;
    let Machine {
        alloc: _,
        stack: _,
        world,
        turns: _,
    } = machine;
    Ok(answer(how, world.output))
}

impl<'a> Machine<'a> {
    /// Runs to the end.
    fn run(&mut self, alloc: Global, program: &Program<'a>, begun: Focus<'a>) -> Result<How, Memory>
        requires { HasNames program.now }
        ensures { IfOk result (λ how. (t : List Event) → output_of t ≡ self.old.world.output → final (how_of how) self.new.world.output ≡ state_of program.now self.old begun.entry t) }
    {
        let mut arguments: Vec<Argument> = Vec::new(alloc);
        let mut focus = begun;
        'turn: loop {
            focus = match self.until_turn(program, focus)? {
                Waiting::Repeat(s) => self.repeat(s)?,
                Waiting::Jump(statements, label) => self.jump(statements, label)?,
                Waiting::Invoke(n) => self.invoke(program, &mut arguments, n)?,
                Waiting::Over(how) => return Ok(how),
            };
        }
    }

    /// The first call of main, which spends no turn.
    fn begin_main(&mut self, program: &Program<'a>) -> Result<Focus<'a>, Memory>
        requires { frames self.old.stack ≡ [] }
        ensures { IfOk result (λ focus. Begins program.now (λ k w. main_run (own program.now) (slice_get (unit_of program.now).functions (unit_of program.now).main) k w) self.old self.new focus) }
    {
        match main_of(program) {
            None => Ok(stray(0)),
            Some(f) => self.enter_main(program, f),
        }
    }

    /// The body of main begins, with arguments where it has parameters.
    fn enter_main(
        &mut self,
        program: &Program<'a>,
        f: &'a CoreFunction,
    ) -> Result<Focus<'a>, Memory>
        requires { frames self.old.stack ≡ [] }
        ensures { IfOk result (λ focus. Begins program.now (λ k w. main_run (own program.now) (Some (function_seen (types program.now.core.now.types) f.now)) k w) self.old self.new focus) }
    {
        if f.parameters == 0 {
            self.enter(program, f, program.core.main(), &[])
        } else {
            let object = self.world.storage.make_zeroed(false, 4)?;
            self.enter_main_with_arguments(program, f, Value::Pointer { object, offset: 0 })
        }
    }

    /// The body of main begins with two arguments: 0, and a pointer to a null pointer.
    fn enter_main_with_arguments(
        &mut self,
        program: &Program<'a>,
        f: &'a CoreFunction,
        place: Value,
    ) -> Result<Focus<'a>, Memory>
        requires { frames self.old.stack ≡ [] }
        ensures { IfOk result (λ focus. Begins program.now (λ k w. main_with (own program.now) (function_seen (types program.now.core.now.types) f.now) (main_call (unit_of program.now) (main_arguments place) w) k w) self.old self.new focus) }
    {
        if !main_fits(program, f) {
            return Ok(Focus::Over(How::Undefined(Cause::CallMismatch, 1)));
        }
        let arguments = [
            Argument {
                value: Value::Number(0),
                of: 0,
                line: 1,
            },
            Argument {
                value: place,
                of: 0,
                line: 1,
            },
        ];
        self.enter(program, f, program.core.main(), &arguments)
    }
}

/// The function main of a unit.
fn main_of<'a>(program: &Program<'a>) -> Option<&'a CoreFunction>
    ensures some { IfSome result (λ f. slice_get (unit_of program.now).functions (unit_of program.now).main ≡ Some (function_seen (types program.now.core.now.types) f.now)) }
    ensures none { IfNone result (slice_get (unit_of program.now).functions (unit_of program.now).main ≡ None) }
{
    program.core.functions().get(program.core.main() as usize)
}

/// An end and the output.
fn answer(how: How, output: Bytes) -> Outcome
    ensures { IsOutcome result (final (how_of how) output) }
{
    match how {
        How::Undefined(cause, line) => Outcome::Undefined {
            output,
            cause,
            line,
        },
        How::OutOfTurns => Outcome::OutOfTurns { output },
        How::Exit(status) => Outcome::Done {
            output,
            status: status.cast_signed(),
        },
    }
}
