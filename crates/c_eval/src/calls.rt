//! Calls: one is made once its callee and arguments are there, and a turn is spent (C89 3.3.2.2).
ghost use Rattle.std.specs.Prelude.{◌≡◌, ℕ, List, Some, None, IfOk};
ghost use Rattle.lcc_base.specs.declared.cause.Cause.TheVariants as Cause;
ghost use Rattle.c_types.specs.Table.{types};
ghost use Rattle.c_meaning.specs.CoreTrees.{line_of, type_of};
ghost use Rattle.c_meaning.specs.Units.{function_seen};
ghost use Rattle.c_runs.specs.Calls.{called_by, function_at};
ghost use Rattle.c_runs.specs.Expressions.{call_by};
ghost use Rattle.c_runs.specs.Locals.{made_call};
ghost use Rattle.c_worlds.specs.Programs.{HasNames, known, unit_of};
ghost use Rattle.c_entries.specs.Arguments.{arguments_seen};
ghost use Rattle.c_eval.specs.declared.focus.Focus.TheVariants as Focus;
ghost use Rattle.c_eval.specs.declared.how.How.TheVariants as How;
ghost use Rattle.c_worlds.specs.declared.program.Program.{Program};
ghost use Rattle.c_eval.specs.Ends.{OfExpression};
ghost use Rattle.c_eval.specs.Frames.{frames};
ghost use Rattle.c_eval.specs.States.{own};
ghost use Rattle.c_eval.specs.Steps.{Enters, IsSpent, IsTaken, Leads, Reaches};

use crate::expressions::{stopped, stray};
use crate::focus::Focus;
use crate::frame::Frame;
use crate::how::How;
use crate::machine::Machine;
use c_entries::{
    Argument, Callee, Provided, built_in_fits, callee_of, enter, function_fits, provide,
};
use c_meaning::{BuiltIn, CoreExpr, CoreFunction};
use c_runs::turns_are_repetitions;
use c_worlds::Program;
use lcc_base::{Cause, Memory};
use objects::Value;

/// A call whose arguments are there.
#[derive(Clone, Copy)]
pub struct Asked<'a> {
    pub call: &'a CoreExpr,
    /// The local behind the copies of its arguments, where a structure that it gives is copied.
    pub result: u32,
}

impl<'a> Machine<'a> {
    /// A call with the arguments on top; n is the local behind its copies. The arguments are put into the buffer.
    pub fn invoke(
        &mut self,
        program: &Program<'a>,
        arguments: &mut Vec<Argument>,
        n: u32,
    ) -> Result<Focus<'a>, Memory>
        requires { HasNames program.now }
        ensures leads { IfOk result (λ focus. Leads program.now self.old (Focus.Invoke n) self.new focus) }
        ensures spent { IfOk result (λ focus. IsSpent self.old self.new focus) }
    {
        match self.take_call(arguments)? {
            None => Ok(stray(0)),
            Some((call, value)) => {
                let passed: &[Argument] = arguments;
                let asked = Asked { call, result: n };
                self.make_call(program, asked, value, passed)
            }
        }
    }

    /// The arguments on top are put into the buffer in order, and the call below them is given.
    fn take_call(
        &mut self,
        arguments: &mut Vec<Argument>,
    ) -> Result<Option<(&'a CoreExpr, Value)>, Memory>
        ensures taken { IfOk result (λ found. (p : Program) → IsTaken p (frames self.old.stack) (frames self.new.stack) arguments.new.items found) }
        ensures world { self.new.world ≡ self.old.world }
        ensures turns { self.new.turns ≡ self.old.turns }
    {
        arguments.clear();
        'passed: loop {
            match self.stack.pop() {
                Some(Frame::Passed(part, value)) => arguments.push(Argument {
                    value,
                    of: part.of,
                    line: part.line,
                })?,
                Some(Frame::Called(call, value)) => {
                    arguments.reverse();
                    return Ok(Some((call, value)));
                }
                _ => return Ok(None),
            }
        }
    }

    /// A call of a value with these arguments.
    fn make_call(
        &mut self,
        program: &Program<'a>,
        asked: Asked<'a>,
        value: Value,
        arguments: &[Argument],
    ) -> Result<Focus<'a>, Memory>
        requires { HasNames program.now }
        ensures reaches { IfOk result (λ focus. Reaches program.now self.old (λ k w. OfExpression (call_by (own program.now) (known program.now (type_of asked.entry.call.now)) (line_of asked.entry.call.now) value asked.entry.result (arguments_seen program.now arguments.now) k w)) self.new focus) }
        ensures spent { IfOk result (λ focus. IsSpent self.old self.new focus) }
    {
        match callee_of(program, value) {
            Callee::Nothing => Ok(mismatch(asked.call)),
            Callee::BuiltIn(b) => self.call_built_in(program, b, asked, arguments),
            Callee::Function(f, number) => {
                self.call_function(program, f, number, asked, arguments)
            }
        }
    }

    /// A function of the unit is called.
    fn call_function(
        &mut self,
        program: &Program<'a>,
        f: &'a CoreFunction,
        number: u32,
        asked: Asked<'a>,
        arguments: &[Argument],
    ) -> Result<Focus<'a>, Memory>
        requires { function_at (unit_of program.now) number ≡ Some (function_seen (types program.now.core.now.types) f.now) }
        ensures reaches { IfOk result (λ focus. Reaches program.now self.old (λ k w. OfExpression (called_by (own program.now) (Some (function_seen (types program.now.core.now.types) f.now)) None (made_call (known program.now (type_of asked.entry.call.now)) (line_of asked.entry.call.now) asked.entry.result (arguments_seen program.now arguments.now) w number) k w)) self.new focus) }
        ensures spent { IfOk result (λ focus. IsSpent self.old self.new focus) }
    {
        turns_are_repetitions();
        let call = asked.call;
        if !function_fits(program, f, call.of, arguments) {
            return Ok(mismatch(call));
        }
        if self.turns == 0 {
            return Ok(Focus::Over(How::OutOfTurns));
        }
        self.turns -= 1;
        let objects = self.world.storage.count();
        let base = self.world.locals.base();
        self.stack
            .push(Frame::Activation(call, asked.result, objects, base))?;
        self.enter(program, f, number, arguments)
    }

    /// A function's body begins.
    pub fn enter(
        &mut self,
        program: &Program<'a>,
        f: &'a CoreFunction,
        number: u32,
        arguments: &[Argument],
    ) -> Result<Focus<'a>, Memory>
        ensures enters { IfOk result (λ focus. Enters program.now (function_seen (types program.now.core.now.types) f.now) number arguments.now self.old self.new focus) }
        ensures output { IfOk result (λ _. self.new.world.output ≡ self.old.world.output) }
        ensures turns { IfOk result (λ _. self.new.turns ≡ self.old.turns) }
    {
        match enter(program, &mut self.world, f, number, arguments) {
            Ok(()) => Ok(Focus::Start(&f.body)),
            Err(stop) => stopped(stop),
        }
    }

    /// A built-in function is called.
    fn call_built_in(
        &mut self,
        program: &Program<'a>,
        b: BuiltIn,
        asked: Asked<'a>,
        arguments: &[Argument],
    ) -> Result<Focus<'a>, Memory>
        ensures reaches { IfOk result (λ focus. (number : ℕ) → Reaches program.now self.old (λ k w. OfExpression (called_by (own program.now) None (Some b) (made_call (known program.now (type_of asked.entry.call.now)) (line_of asked.entry.call.now) asked.entry.result (arguments_seen program.now arguments.now) w number) k w)) self.new focus) }
        ensures spent { IfOk result (λ focus. IsSpent self.old self.new focus) }
    {
        let call = asked.call;
        if !built_in_fits(program, b, call.of, arguments) {
            return Ok(mismatch(call));
        }
        if self.turns == 0 {
            return Ok(Focus::Over(How::OutOfTurns));
        }
        self.turns -= 1;
        match provide(&mut self.world, b, arguments, call.line) {
            Ok(Provided::Gave(value)) => Ok(Focus::Value(value)),
            Ok(Provided::Exits(status)) => Ok(Focus::Over(How::Exit(status))),
            Err(stop) => stopped(stop),
        }
    }
}

/// A call that doesn't fit what it calls.
fn mismatch<'a>(call: &CoreExpr) -> Focus<'a>
    ensures { result ≡ Focus.Over (How.Undefined Cause.CallMismatch (line_of call.now)) }
{
    Focus::Over(How::Undefined(Cause::CallMismatch, call.line))
}
